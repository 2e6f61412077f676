//! What a run leaves: the log of each core, the tables of the monitor, and what makes logs a legal
//! history.
#![tactic(auto)]

mod event;
pub mod fields;
mod finished;
mod laws;
mod log;
mod merge;
mod period;
pub mod rows;
#[cfg(test)]
mod tests;

pub use event::{Entry, Event, PageInput, Why};
pub use finished::Finished;
pub use laws::{
    each_log_is_its_part, legal_logs_are_reported, legal_run_is_reported, measured_by_history,
    never_busy_alone, touches_by_walk,
};
pub use log::Log;
pub use merge::Merge;
pub use period::{Period, is_end, is_freeing, note_slot, owner_by, period_of};
