//! What each core does, as a tree of moves: the lines of its script, its monitor calls, its exits and its turns; and the
//! finished run that a list of core numbers gives.
//!
//! The definitions stand in `specs/`; no code here runs.
#![tactic(auto)]

mod exit;
mod laws;

pub use exit::Exit;
pub use laws::runs_are_of_their_cores;
