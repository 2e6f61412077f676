//! The sequential monitor as a value: one call at a time, each at the next ticket. No call takes memory
//! but the first, which makes the monitor.
#![tactic(auto)]

mod begun;
mod gather;
mod loaded_items;
mod monitor;
mod put_back;
mod state;
mod step;
mod tables;
#[cfg(test)]
mod tests;
mod turns;
mod up_to;
mod words;

pub use begun::Begun;
pub use monitor::Monitor;
pub use tables::Tables;
pub use turns::{Turn, take_turns};
