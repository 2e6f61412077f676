//! The sequential monitor as definitions, and laws about them. No code here runs: what the monitor is
//! stands in `specs/`, and each function below is a law that its contract states. The modules hold
//! runs of calls from the start of a machine, with what each call answers and tries.
#![tactic(auto, unfolding(mon_types::specs::Bits::members))]

mod any_call;
mod inside;
mod loading;
mod offers;
mod regions;

ghost use Rattle.mon_model.specs.Laws.{RefusalChangesNothing, NeverConcurrent, ChangesOnlyTried, ReadsOnlyTried, StartIsWhole, StaysWhole};

pub use any_call::{any_call_on_a_region, any_call_on_its_core, any_call_on_slots};
pub use inside::{delete_from_inside, enclave_blocks_own_region, self_mail, tick_and_restore};
pub use loading::{
    create_overflow, delete_blocks, init_without_thread, loads_an_enclave, page_below_next,
    twin_enclaves,
};
pub use offers::{offer_and_accept, offer_withdrawn, reserved_page};
pub use regions::{
    bad_region, first_path, free_asks_every_core, free_unblocked, largest_machine, odd_calls,
};

/// A refused call leaves the state of the monitor as it was.
pub fn refusal_changes_nothing()
    ensures { RefusalChangesNothing }
{}

/// A call of the sequential monitor never meets a lock that another core holds.
pub fn never_concurrent()
    ensures { NeverConcurrent }
{}

/// A call changes no record but those of the objects that it tries, with the items of those enclaves,
/// and no mode but that of its core.
pub fn changes_only_tried()
    ensures { ChangesOnlyTried }
{}

/// A call reads no record but those of the objects that it tries, with the items of those enclaves, and
/// no mode but that of its core: in two states that agree on these it answers the same and makes the
/// same of them.
pub fn reads_only_tried()
    ensures { ReadsOnlyTried }
{}

/// The tables of the state are always as long as the machine's shape says.
pub fn stays_whole()
    ensures first { StartIsWhole }
    ensures next { StaysWhole }
{}
