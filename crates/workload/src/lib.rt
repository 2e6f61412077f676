//! Scripts that are generated: for a number, 1,000 lines of each core, which say which calls and loads it makes.
//!
//! Two equal numbers give two equal scripts. The lines are about the regions 1 to 7 of the plain machine, so that
//! cores meet at them.
#![tactic(auto)]

mod generator;
mod script;
#[cfg(test)]
mod tests;

pub use script::{LINES, workload};
