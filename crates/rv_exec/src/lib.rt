//! What each instruction of the guest does, apart from the machine that carries it out.
//!
//! `execute` says what an instruction asks of the machine: registers to write, a load, a store, a trap.
//! It reads the program counter and the registers, and changes nothing itself.
#![tactic(auto)]

mod effect;
mod extend;
mod operation;
mod step;
#[cfg(test)]
mod tests;

pub use effect::Effect;
pub use extend::finish_load;
pub use step::execute;
