//! The calls on threads: load_thread, delete_thread, enter, exit, aex and restore.
//!
//! For each call `decide_x` gives the reply from the records of the objects that the call tries, where
//! the call was not refused before any object was tried. `after_x` gives the records that the call
//! leaves, at its ticket, where `decide_x` answered Ok.
#![tactic(auto)]

mod after;
mod decide;
#[cfg(test)]
mod tests;

pub use after::{
    after_aex, after_delete_thread, after_enter, after_exit, after_load_thread, after_restore,
};
pub use decide::{
    decide_aex, decide_delete_thread, decide_enter, decide_exit, decide_load_thread, decide_restore,
};
