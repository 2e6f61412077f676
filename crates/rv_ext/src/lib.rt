//! The arithmetic of two extensions of RISC-V: the multiplication and division instructions of M,
//! and what the atomic instructions of Zaamo make of the word in memory.
//!
//! A register is a `u64`. Whether it stands for a signed number is said by the instruction.
#![tactic(auto)]

mod atomic;
mod mul;
mod op;
#[cfg(test)]
mod tests;
mod word;

pub use atomic::amo;
pub use mul::multiply;
pub use op::{AmoOp, MulOp};
pub use word::{bits_of, bits_of_word, extend_word, low_word, signed_of, signed_of_word};
