//! The lines of a report, read back: which line tells which machine, call or event.
//!
//! A line is read by its words, and then compared with what the report would print of it; so what is read is the
//! line's, byte by byte, and what a report prints is read.
#![tactic(auto)]

mod call;
mod event;
mod lines;
mod machine;
mod object;
mod reply;
#[cfg(test)]
mod tests;
mod words;

pub use call::read_call;
pub use event::{EventLine, read_event};
pub use lines::next_line;
pub use machine::read_machine;
