//! The records that the rows hold.

ghost use Rattle.std.specs.Prelude.{◌≡◌, ◌<◌, ◌≤◌, [], map, length, vec_capacity};
ghost use Rattle.std.specs.List.{range_with_len};
ghost use Rattle.protocol.specs.Layout.{dram_from};
ghost use Rattle.word_list.specs.Pieces.{joined};
ghost use Rattle.word_list.specs.Records.{region_listed, enclave_listed, thread_listed, cell_listed};

use crate::layout::row_index;
use crate::pieces::Pieces;
use mon_types::{
    Config, Enclave, Items, ObjectId, Region, SLOTS, THREADS, Thread, cell_of, enclave_of,
    thread_of, unpack_own,
};

/// The record of a region; Free where its row is no region's.
fn region_in(config: &Config, words: &Pieces, r: u8) -> Region
    requires whole { length words.now.table.items ≡ dram_from config.now }
    requires there { r < config.now.regions }
    ensures { result ≡ region_listed config.now (joined words.now) r }
{
    let at = row_index(config, ObjectId::Region(r));
    unpack_own(words.word(at), words.word(at + 1)).unwrap_or(Region::Free)
}

/// The record of an enclave slot, without what is past the machine's end.
fn enclave_in(config: &Config, words: &Pieces, e: u8) -> Enclave
    requires whole { length words.now.table.items ≡ dram_from config.now }
    requires there { e < 8 }
    ensures { result ≡ enclave_listed config.now (joined words.now) e }
{
    let row = words.row(row_index(config, ObjectId::Enclave(e)));
    enclave_of(&row).within(config)
}

/// The record of a thread slot.
fn thread_in(config: &Config, words: &Pieces, t: u8) -> Thread
    requires whole { length words.now.table.items ≡ dram_from config.now }
    requires there { t < 16 }
    ensures { result ≡ thread_listed config.now (joined words.now) t }
{
    let row = words.row(row_index(config, ObjectId::Thread(t)));
    thread_of(&row)
}

/// The ticket of a core's last flush.
fn cell_in(config: &Config, words: &Pieces, core: u8) -> u32
    requires whole { length words.now.table.items ≡ dram_from config.now }
    requires there { core < config.now.cores }
    ensures { result ≡ cell_listed config.now (joined words.now) core }
{
    cell_of(words.word(row_index(config, ObjectId::Cell(core))))
}

/// The record of each region, in a list that has the room.
pub(crate) fn regions_in(config: &Config, words: &Pieces, mut room: Vec<Region>) -> Items<Region>
    requires whole { length words.now.table.items ≡ dram_from config.now }
    requires empty { room.items ≡ [] }
    requires room { config.now.regions ≤ vec_capacity room }
    ensures { result ≡ map (region_listed config.now (joined words.now)) (range_with_len 0 config.now.regions) }
{
    for r in 0..config.regions() {
        room.push_reserved(region_in(config, words, r));
    }
    Items::from_vec(room)
}

/// That of each enclave slot.
pub(crate) fn enclaves_in(config: &Config, words: &Pieces, mut room: Vec<Enclave>) -> Items<Enclave>
    requires whole { length words.now.table.items ≡ dram_from config.now }
    requires empty { room.items ≡ [] }
    requires room { 8 ≤ vec_capacity room }
    ensures { result ≡ map (enclave_listed config.now (joined words.now)) (range_with_len 0 8) }
{
    for e in 0..SLOTS as u8 {
        room.push_reserved(enclave_in(config, words, e));
    }
    Items::from_vec(room)
}

/// That of each thread slot.
pub(crate) fn threads_in(config: &Config, words: &Pieces, mut room: Vec<Thread>) -> Items<Thread>
    requires whole { length words.now.table.items ≡ dram_from config.now }
    requires empty { room.items ≡ [] }
    requires room { 16 ≤ vec_capacity room }
    ensures { result ≡ map (thread_listed config.now (joined words.now)) (range_with_len 0 16) }
{
    for t in 0..THREADS as u8 {
        room.push_reserved(thread_in(config, words, t));
    }
    Items::from_vec(room)
}

/// That of each core's cell.
pub(crate) fn cells_in(config: &Config, words: &Pieces, mut room: Vec<u32>) -> Items<u32>
    requires whole { length words.now.table.items ≡ dram_from config.now }
    requires empty { room.items ≡ [] }
    requires room { config.now.cores ≤ vec_capacity room }
    ensures { result ≡ map (cell_listed config.now (joined words.now)) (range_with_len 0 config.now.cores) }
{
    for core in 0..config.cores() {
        room.push_reserved(cell_in(config, words, core));
    }
    Items::from_vec(room)
}
