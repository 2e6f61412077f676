//! Records from the words of rows, and rows from records.

ghost use Rattle.std.specs.Prelude.{◌≡◌, ◌+◌, ◌≤◌, ◌++◌, length};
ghost use Rattle.mon_types.specs.Objects.{width};
ghost use Rattle.lock_plan.specs.Records.{HasRoom};
ghost use Rattle.call_machine.specs.Found.{with_row, enclave_rows, thread_rows, region_rows, cell_rows, held_rows};
ghost use Rattle.call_machine.specs.Named.{EnclavesAreNamed, ThreadsAreNamed, RegionsAreNamed, IsNamed};

use crate::work::MOST_WORDS;
use arrayvec::ArrayVec;
use lock_plan::Held;
use mon_types::{
    Config, Enclave, ObjectId, Region, Thread, cell_of, enclave_of, enclave_words, pack_at,
    pack_own, thread_of, thread_words, unpack_own,
};

/// How many words the row of an object has.
#[tactic(auto, unfolding(mon_types::specs::Objects::width))]
pub fn width_of(object: ObjectId) -> u8
    ensures { result ≡ width object }
{
    match object {
        ObjectId::Enclave(_) => 29,
        ObjectId::Thread(_) => 37,
        ObjectId::Region(_) => 2,
        ObjectId::Cell(_) => 1,
    }
}

/// So many words in an array.
pub fn array_of<const N: usize>(words: &[u64]) -> [u64; N]
    requires { length words.now ≡ N }
    ensures { result ≡ words.now }
{
    let mut row = [0; N];
    row.copy_from_slice(words);
    row
}

/// The record of an object, read from the words of its row, behind those that are held.
#[tactic(auto, unfolding(mon_types::specs::Objects::width, crate::specs::Found::with_row))]
pub fn take_row(config: &Config, object: ObjectId, words: &[u64], held: &mut Held)
    requires long { length words.now ≡ width object }
    requires room { HasRoom held.old object }
    ensures { held.new ≡ with_row config.now object words.now held.old }
{
    match object {
        ObjectId::Enclave(e) => {
            let enclave = enclave_of(&array_of(words)).within(config);
            held.enclaves.push((e, enclave));
        }
        ObjectId::Thread(t) => held.threads.push((t, thread_of(&array_of(words)))),
        ObjectId::Region(r) => {
            let region = unpack_own(words[0], words[1]).unwrap_or(Region::Free);
            held.regions.push((r, region));
        }
        ObjectId::Cell(c) => held.cells.push((c, cell_of(words[0]))),
    }
}

/// Puts one more row behind the words.
fn add_row(words: &mut ArrayVec<u64, MOST_WORDS>, row: &[u64])
    requires { length words.old.items + length row.now ≤ MOST_WORDS }
    ensures { words.new.items ≡ words.old.items ++ row.now }
{
    let _ = words.try_extend_from_slice(row);
}

fn add_enclaves(words: &mut ArrayVec<u64, MOST_WORDS>, items: &[(u8, Enclave)])
    requires named { EnclavesAreNamed items.now }
    requires room { length words.old.items + length (enclave_rows items.now) ≤ MOST_WORDS }
    ensures { words.new.items ≡ words.old.items ++ enclave_rows items.now }
{
    for item in items {
        add_row(words, &enclave_words(&item.1));
    }
}

fn add_threads(words: &mut ArrayVec<u64, MOST_WORDS>, items: &[(u8, Thread)])
    requires named { ThreadsAreNamed items.now }
    requires room { length words.old.items + length (thread_rows items.now) ≤ MOST_WORDS }
    ensures { words.new.items ≡ words.old.items ++ thread_rows items.now }
{
    for item in items {
        add_row(words, &thread_words(&item.1));
    }
}

fn add_regions(words: &mut ArrayVec<u64, MOST_WORDS>, items: &[(u8, Region)])
    requires named { RegionsAreNamed items.now }
    requires room { length words.old.items + length (region_rows items.now) ≤ MOST_WORDS }
    ensures { words.new.items ≡ words.old.items ++ region_rows items.now }
{
    for item in items {
        add_row(words, &[pack_own(&item.1), pack_at(&item.1)]);
    }
}

fn add_cells(words: &mut ArrayVec<u64, MOST_WORDS>, items: &[(u8, u32)])
    requires { length words.old.items + length (cell_rows items.now) ≤ MOST_WORDS }
    ensures { words.new.items ≡ words.old.items ++ cell_rows items.now }
{
    for item in items {
        add_row(words, &[u64::from(item.1)]);
    }
}

/// The rows of all records that are held, in place of the words.
#[tactic(auto, unfolding(crate::specs::Found::held_rows))]
pub fn put_rows(held: &Held, words: &mut ArrayVec<u64, MOST_WORDS>)
    requires named { IsNamed held.now }
    requires room { length (held_rows held.now) ≤ MOST_WORDS }
    ensures { words.new.items ≡ held_rows held.now }
{
    words.clear();
    add_enclaves(words, &held.enclaves);
    add_threads(words, &held.threads);
    add_regions(words, &held.regions);
    add_cells(words, &held.cells);
}
