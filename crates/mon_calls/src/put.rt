//! Other records in their places.

ghost use Rattle.std.specs.Prelude.{◌≡◌};
ghost use Rattle.mon_calls.specs.OnHeld.{first_put, second_put, put_enclave, put_second, put_thread, put_region, put_cell};

use lock_plan::Held;
use mon_types::{Enclave, Region, Thread};

#[tactic(auto, using(crate::proofs::Puts::puts))]
fn put_first_enclave(items: &mut [(u8, Enclave)], new: Enclave)
    ensures { items.new ≡ first_put new items.old }
{
    if !items.is_empty() {
        items[0].1 = new;
    }
}

/// The first enclave that is held has this record now; nothing changes where none is held.
pub fn set_enclave(held: &mut Held, new: Enclave)
    ensures { held.new ≡ put_enclave held.old new }
{
    put_first_enclave(&mut held.enclaves, new);
}

#[tactic(auto, using(crate::proofs::Puts::puts))]
fn put_second_enclave(items: &mut [(u8, Enclave)], new: Enclave)
    ensures { items.new ≡ second_put new items.old }
{
    if 1 < items.len() {
        items[1].1 = new;
    }
}

/// The same of the second enclave.
pub fn set_second(held: &mut Held, new: Enclave)
    ensures { held.new ≡ put_second held.old new }
{
    put_second_enclave(&mut held.enclaves, new);
}

#[tactic(auto, using(crate::proofs::Puts::puts))]
fn put_first_thread(items: &mut [(u8, Thread)], new: Thread)
    ensures { items.new ≡ first_put new items.old }
{
    if !items.is_empty() {
        items[0].1 = new;
    }
}

/// The same of the first thread.
pub fn set_thread(held: &mut Held, new: Thread)
    ensures { held.new ≡ put_thread held.old new }
{
    put_first_thread(&mut held.threads, new);
}

#[tactic(auto, using(crate::proofs::Puts::puts))]
fn put_first_region(items: &mut [(u8, Region)], new: Region)
    ensures { items.new ≡ first_put new items.old }
{
    if !items.is_empty() {
        items[0].1 = new;
    }
}

/// The same of the first region.
pub fn set_region(held: &mut Held, new: Region)
    ensures { held.new ≡ put_region held.old new }
{
    put_first_region(&mut held.regions, new);
}

#[tactic(auto, using(crate::proofs::Puts::puts))]
fn put_first_cell(items: &mut [(u8, u32)], new: u32)
    ensures { items.new ≡ first_put new items.old }
{
    if !items.is_empty() {
        items[0].1 = new;
    }
}

/// The same of the first cell.
pub fn set_cell(held: &mut Held, new: u32)
    ensures { held.new ≡ put_cell held.old new }
{
    put_first_cell(&mut held.cells, new);
}
