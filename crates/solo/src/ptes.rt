//! The page-table entries (ptes) that a call reads.

ghost use Rattle.std.specs.Prelude.{◌≡◌, ◌<◌, ◌≤◌, [], if◌then◌else◌};
ghost use Rattle.mon_types.specs.Shape.{page_total};
ghost use Rattle.dram_map.specs.Words.{word_at};
ghost use Rattle.sv39_pte.specs.Tables.{path_by};
ghost use Rattle.mon_enclaves.specs.LoadReply.{call_path};
ghost use Rattle.lock_plan.specs.Plan.{first_enclave};

use arrayvec::ArrayVec;
use dram_map::Memory;
use mon_enclaves::{address_of, path_length};
use mon_seq::Begun;
use mon_types::{Call, Config};
use sv39_pte::{pte_place, table_led_to};

/// The places of so many ptes on an address's path, from the root on this page down. A pte that leads to
/// no table is the last.
fn path(config: &Config, memory: &Memory, root: u16, va: u64, count: u8) -> ArrayVec<u64, 3>
    requires { count ≤ 3 }
    ensures { result.items ≡ path_by config.now (word_at memory.now) va 2 count root }
{
    let mut places = ArrayVec::new();
    let mut page = root;
    for step in 0..count {
        let place = pte_place(page, 2 - step, va);
        places.push(place);
        match table_led_to(config, memory.word(place)) {
            Some(table) => page = table,
            None => break,
        }
    }
    places
}

/// The number of a page of DRAM.
pub fn page_number(config: &Config, page: u64) -> u16
    requires { page < page_total config.now }
    ensures { result ≡ page }
{
    let pages = config.total_pages();
    prove!(page < u64::from(pages));
    page as u16
}

/// The places of the ptes that a call reads which was begun: those on its path from the root of its enclave
/// down, where it goes on to them.
pub fn places_read(config: &Config, memory: &Memory, call: &Call, begun: &Begun) -> ArrayVec<u64, 3>
    ensures { result.items ≡ (if begun.now.reads_ptes then call_path config.now (word_at memory.now) (first_enclave begun.now.held) call.now else []) }
{
    if !begun.reads_ptes {
        return ArrayVec::new();
    }
    match begun.held.first_enclave().root {
        None => ArrayVec::new(),
        Some(root) => path(config, memory, root, address_of(call), path_length(call)),
    }
}
