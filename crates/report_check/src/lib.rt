//! The checker of reports: reads a report and says yes exactly where it is a legal one, and otherwise names the first
//! line that fails. It trusts nobody, the program that printed the report included.
#![tactic(auto)]

mod check;
mod event;
mod fault;
mod file;
mod holds;
mod known;
mod log;
mod logs;
mod place;
#[cfg(test)]
mod tests;
mod whole;

pub use check::check_bytes;
pub use fault::ReportError;
pub use file::check_report;
pub use holds::{Holds, Touch};
pub use known::Known;
pub use log::{Passed, check_log};
pub use logs::{Ended, check_logs};
pub use place::Place;
pub use whole::Whole;
