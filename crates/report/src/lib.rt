//! The text of a report: the calls of a finished run by ticket, the log of each core, and the tables
//! of the monitor, line by line.
#![tactic(auto)]

mod calls;
mod events;
mod objects;
mod print;
mod tables;
#[cfg(test)]
mod tests;
mod whole;

pub use calls::line_of_call;
pub use events::{line_of_event, line_of_log, line_of_ticket};
pub use print::{Print, put_each};
pub use whole::{end, line_of_machine, put_cores, report, title};
