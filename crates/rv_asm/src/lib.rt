//! The assembler of guest programs: a text in, its words out, or the first fault.
#![tactic(auto)]

mod fault;
mod label;
mod name;
mod number;
mod operand;
mod printer;
mod program;
mod spelling;
mod statement;
#[cfg(test)]
mod tests;
mod text;

pub use fault::{AsmError, AsmFault, AsmKind};
pub use printer::print;
pub use program::{LIMIT, assemble};
