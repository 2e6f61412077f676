//! The readers of scripts and schedules: a file's bytes in, the lines of each core or the items out, or the
//! first fault.
#![tactic(auto)]

mod draft;
mod fault;
mod form;
mod line;
mod said;
mod schedule;
#[cfg(test)]
mod schedule_tests;
mod script;
#[cfg(test)]
mod tests;

pub use draft::TURNS;
pub use fault::{LineKind, ScheduleError, ScheduleFault, ScriptError, ScriptFault};
pub use schedule::{SCHEDULE_LIMIT, read_schedule};
pub use script::{LIMIT, MOST_CORES, parse_script, read_script};
