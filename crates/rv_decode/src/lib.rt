//! Instruction words of the guest: RV64I, RV64M and Zaamo, both ways.
//!
//! The instructions and their words are those of the RISC-V Unprivileged ISA, and `sfence.vma` is that
//! of the Privileged ISA. A word that is in no row of their table is no instruction here.
#![tactic(auto)]

mod codes;
mod decoding;
mod encoding;
mod fields;
mod immediates;
mod inst;
mod op;
#[cfg(test)]
mod tests;
mod words;

pub use decoding::decode;
pub use encoding::encode;
pub use inst::Inst;
pub use op::{BranchOp, ImmOp, LoadOp, RegOp, StoreOp, UpperOp};
