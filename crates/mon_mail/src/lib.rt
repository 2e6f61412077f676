//! The calls on mailboxes: accept, send and read.
//!
//! For each call `decide_x` gives the reply from the records of the objects that the call tries, where
//! the call was not refused before any object was tried. `after_x` gives the records that the call
//! leaves, at its ticket, where `decide_x` answered Ok.
#![tactic(auto)]

mod after;
mod decide;
#[cfg(test)]
mod tests;

pub use after::{after_accept, after_read, after_send};
pub use decide::{decide_accept, decide_read, decide_send};
