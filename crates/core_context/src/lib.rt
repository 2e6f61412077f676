//! A core's pc and registers, and what a monitor call makes of them: the change of context that it ends with, and the
//! registers of a call that a guest makes; and by whom calls are made.
#![tactic(auto)]

mod after;
mod context;
mod contexts;
mod guest;
mod origin;
#[cfg(test)]
mod tests;

pub use after::After;
pub use context::Context;
pub use contexts::{Contexts, Leaving};
pub use origin::Origin;
