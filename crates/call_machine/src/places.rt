//! Places in rows that stand one after the other.

ghost use Rattle.std.specs.Prelude.{◌≡◌, ◌≤◌, ◌<◌, ◌-◌, ◌==◌, false, Some, length, map, slice_get, slice_index, slice_set, List, ℕ};
ghost use Rattle.mon_types.specs.declared.object.ObjectId.{ObjectId};
ghost use Rattle.mon_records.specs.Rows.{same_object};
ghost use Rattle.protocol.specs.CallTree.{Tree};
ghost use Rattle.call_machine.specs.Rest.{places, row_start, writes_from};

use crate::phase::Lock;
use crate::rows::width_of;
use crate::work::{MOST_LOCKS, MOST_WORDS};
use arrayvec::ArrayVec;
use mon_types::ObjectId;

/// Whether two objects are one.
#[tactic(auto, unfolding(mon_records::specs::Rows::same_object))]
fn is_same(a: ObjectId, b: ObjectId) -> bool
    ensures { result ≡ same_object a b }
{
    match (a, b) {
        (ObjectId::Enclave(a), ObjectId::Enclave(b)) => a == b,
        (ObjectId::Thread(a), ObjectId::Thread(b)) => a == b,
        (ObjectId::Region(a), ObjectId::Region(b)) => a == b,
        (ObjectId::Cell(a), ObjectId::Cell(b)) => a == b,
        _ => false,
    }
}

/// Where the row of an object begins; behind all rows where it is none of these objects.
pub fn row_start(locks: &[Lock], object: ObjectId) -> usize
    requires { length locks.now ≤ MOST_LOCKS }
    ensures { result ≡ row_start (map (λ l. l.object) locks.now) object }
{
    let mut start = 0;
    for lock in locks {
        if is_same(lock.object, object) {
            return start;
        }
        start += usize::from(width_of(lock.object));
    }
    start
}

/// The object and the place in its row of a word of all rows.
pub fn place_of(locks: &[Lock], at: usize) -> (ObjectId, u8)
    requires { at < length (places (map (λ l. l.object) locks.now)) }
    ensures { slice_get (places (map (λ l. l.object) locks.now)) at ≡ Some result }
{
    let mut rest = at;
    for lock in locks {
        let width = width_of(lock.object);
        if rest < usize::from(width) {
            return (lock.object, rest as u8);
        }
        rest -= usize::from(width);
    }
    unreachable!()
}

/// The first place from one on where the word is to differ from what stands there, or the end.
pub fn first_change(stood: &[u64], wanted: &[u64], from: usize) -> usize
    requires start { from ≤ length stood.now }
    requires same { length wanted.now ≡ length stood.now }
    ensures on { from ≤ result }
    ensures end { result ≤ length stood.now }
    ensures differs { result < length stood.now → (slice_index stood.now result == slice_index wanted.now result) ≡ false }
    ensures skips { (ps : List (ObjectId × ℕ)) (next : Tree) → length ps ≡ length stood.now → writes_from ps stood.now wanted.now from next ≡ writes_from ps stood.now wanted.now result next }
{
    let mut at = from;
    while at < stood.len() && stood[at] == wanted[at] {
        at += 1;
    }
    at
}

/// Puts a word at a place of all rows.
pub fn put_word(words: &mut ArrayVec<u64, MOST_WORDS>, at: usize, word: u64)
    requires { at < length words.old.items }
    ensures { words.new.items ≡ slice_set words.old.items at word }
{
    words[at] = word;
}
