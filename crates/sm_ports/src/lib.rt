//! What reaches outside: a depot of named files, a sink of bytes, and a gate round each monitor call.
//!
//! A depot and a sink count their faults, so that a caller can tell a failed call from a body that
//! only says that it failed. Where a depot tells its files, or a sink what it has taken, clauses speak
//! of the bytes.
#![tactic(auto)]

mod depots;
mod failed;
mod failures;
mod files;
mod ports;
mod real;
mod sinks;
#[cfg(test)]
mod tests;
mod whole;

pub use depots::{DripDepot, MapDepot, StillDepot};
pub use failed::{Failed, ReadError};
pub use ports::{Depot, Gate, OpenGate, Sink};
pub use real::{FileDepot, StdSink};
pub use sinks::{DripSink, StillSink, VecSink};
pub use whole::{put_all, read_file};
