//! The machine of one core over the sequential monitor, without moves and locks: it carries out the lines of a
//! script and the code of a guest.
#![tactic(auto)]

mod answers;
mod calls;
mod guest;
#[cfg(test)]
mod guest_tests;
mod lines;
mod looks;
mod one_core;
mod ptes;
mod run;
#[cfg(test)]
mod tests;
mod translation;
mod turns;

pub use run::solo;
