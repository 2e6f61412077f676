//! What is wrong with a text.

ghost use Rattle.std.specs.Prelude.{◌≡◌};
ghost use Rattle.rv_asm.specs.declared.fault.AsmError.TheVariants as errors;

use std::alloc::AllocError;
use thiserror::Error;

/// What is wrong with a line. Where several are, `DoubleLabel` comes first, then `UnknownWord`, then a
/// wrong number of operands; then the operands from left to right, each by its form and then by its
/// value; and `TooLong` last.
#[derive(Clone, Copy, Debug, PartialEq, Eq, Error)]
pub enum AsmKind {
    /// What stands where a statement's name is due is no such name, or a byte of the line is not ASCII.
    #[error("unknown word")]
    UnknownWord,
    /// An operand is not of its form, or there are too few or too many.
    #[error("bad operand")]
    BadOperand,
    /// A number does not fit, an offset is odd, or a place lies behind or is no multiple of 4.
    #[error("out of range")]
    OutOfRange,
    /// A target is no label of the text.
    #[error("unknown label")]
    UnknownLabel,
    /// An earlier line has the same label.
    #[error("double label")]
    DoubleLabel,
    /// With this line there are more words than the limit; at line 0, more bytes than `LIMIT`.
    #[error("too long")]
    TooLong,
}

/// The first faulty line of a text, counted from 1, and what is wrong with it.
#[derive(Debug, Drop, Error)]
#[error("asm line {line} {kind}")]
pub struct AsmFault {
    pub line: u32,
    pub kind: AsmKind,
}

/// Why a text was not assembled.
#[derive(Debug, Drop)]
pub enum AsmError {
    /// The text is none of the grammar, or too long.
    Fault(AsmFault),
    /// There was no memory for the labels or the words.
    Memory,
}

impl From<AllocError> for AsmError {
    ghost from_gives = { λ _ error. error ≡ errors.Memory };

    fn from(_error: AllocError) -> AsmError {
        AsmError::Memory
    }
}
