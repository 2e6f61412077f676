//! What the calls on regions leave of the records that they hold.

ghost use Rattle.std.specs.Prelude.{◌≡◌, ◌<◌, ◌==◌, if◌then◌else◌, ℕ, List, None, Some};
ghost use Rattle.mon_types.specs.Owns.{os_word};
ghost use Rattle.mon_types.specs.declared.thread.Mode.{Mode};
ghost use Rattle.mon_model.specs.RegionCalls.{blocked, loses_region, gains_region, with_assigned};
ghost use Rattle.mon_regions.specs.Named.{given_to, named_region, IsAcceptRegion};
ghost use Rattle.lock_plan.specs.Plan.{first_enclave};
ghost use Rattle.mon_calls.specs.OnHeld.{put_enclave, put_region, put_cell};
ghost use Rattle.mon_calls.specs.Left.{left_by};

use crate::put::{set_cell, set_enclave, set_region};
use lock_plan::Held;
use mon_regions::{after_accept_region, after_assign, after_block, after_flush, after_free};
use mon_types::{Call, Enclave, OS_WORD, Owner, Region};

/// Blocks region r, which leaves the set of this enclave.
fn block_own(call: &Call, ticket: u32, r: u64, own: &mut Enclave, region: &mut Region)
    requires call { call.now ≡ Call.Block r }
    requires r { r < 64 }
    ensures own { own.new ≡ loses_region own.old r }
    ensures region { region.new ≡ blocked region.old ticket }
{
    after_block(ticket, call, Some(own), region);
}

/// block of region r. Where the OS blocks it no enclave is held, and none changes.
pub fn apply_block(call: &Call, ticket: u32, r: u64, held: &mut Held)
    requires call { call.now ≡ Call.Block r }
    requires r { r < 64 }
    ensures { (mode : Mode) (digest : List ℕ) → held.new ≡ left_by mode call.now digest ticket held.old }
{
    let mut region = held.first_region();
    let mut own = held.first_enclave();
    block_own(call, ticket, r, &mut own, &mut region);
    set_region(held, region);
    set_enclave(held, own);
}

/// free.
pub fn apply_free(call: &Call, ticket: u32, held: &mut Held)
    ensures { held.new ≡ put_region held.old Region.Free }
{
    let mut region = Region::Free;
    after_free(ticket, call, &mut region);
    set_region(held, region);
}

/// Gives or offers region r to the enclave in slot `to`, whose record this is.
fn give(call: &Call, ticket: u32, r: u64, to: u64, enclave: &mut Enclave, region: &mut Region)
    requires call { call.now ≡ Call.Assign r to }
    requires r { r < 64 }
    requires to { to < 8 }
    ensures enclave { enclave.new ≡ with_assigned enclave.old r }
    ensures region { region.new ≡ given_to (Some enclave.old) to ticket }
{
    after_assign(ticket, call, Some(enclave), region);
}

/// Gives region r to the OS.
fn keep(call: &Call, ticket: u32, r: u64, region: &mut Region)
    requires call { call.now ≡ Call.Assign r os_word }
    requires r { r < 64 }
    ensures region { region.new ≡ given_to None os_word ticket }
{
    after_assign(ticket, call, None, region);
}

/// The enclave and the region after the assign.
fn assigned(call: &Call, ticket: u32, r: u64, to: u64, enclave: Enclave) -> (Enclave, Region)
    requires call { call.now ≡ Call.Assign r to }
    requires r { r < 64 }
    requires to { (to ≡ os_word → ⊥) → to < 8 }
    ensures region { result.1 ≡ given_to (if to == os_word then None else Some enclave) to ticket }
    ensures enclave { result.0 ≡ (if to == os_word then enclave else with_assigned enclave r) }
{
    let mut region = Region::Free;
    let mut own = enclave;
    if to == OS_WORD {
        keep(call, ticket, r, &mut region);
    } else {
        give(call, ticket, r, to, &mut own, &mut region);
    }
    (own, region)
}

/// assign of region r to the OS, or to the enclave in slot `to`.
pub fn apply_assign(call: &Call, ticket: u32, r: u64, to: u64, held: &mut Held)
    requires call { call.now ≡ Call.Assign r to }
    requires r { r < 64 }
    requires to { (to ≡ os_word → ⊥) → to < 8 }
    ensures { (mode : Mode) (digest : List ℕ) → held.new ≡ left_by mode call.now digest ticket held.old }
{
    let (enclave, region) = assigned(call, ticket, r, to, held.first_enclave());
    set_region(held, region);
    set_enclave(held, enclave);
}

/// flush.
pub fn apply_flush(call: &Call, ticket: u32, held: &mut Held)
    ensures { held.new ≡ put_cell held.old ticket }
{
    let mut cell = 0;
    after_flush(ticket, call, &mut cell);
    set_cell(held, cell);
}

/// accept_region by the enclave in slot `own`.
pub fn apply_accept_region(call: &Call, ticket: u32, own: u8, held: &mut Held)
    requires { IsAcceptRegion call.now }
    ensures { held.new ≡ put_enclave (put_region held.old (Region.Owned (Owner.Enclave own) ticket)) (gains_region (first_enclave held.old) (named_region call.now)) }
{
    let mut region = held.first_region();
    let mut enclave = held.first_enclave();
    after_accept_region(ticket, call, own, &mut enclave, &mut region);
    set_region(held, region);
    set_enclave(held, enclave);
}
