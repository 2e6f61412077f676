//! Why bytes, or a file, were not read.

ghost use Rattle.std.specs.Prelude.{◌≡◌};
ghost use Rattle.reader_answers.specs.Answers.{widened};
ghost use Rattle.reader_answers.specs.declared.errors.ParseError.TheVariants as errors;
ghost use Rattle.reader_answers.specs.declared.errors.FileError.TheVariants as file_errors;

use sm_ports::Failed;
use std::alloc::AllocError;

/// What may be wrong with the bytes that a reader reads.
pub trait Fault {}

/// Why bytes were not read.
#[derive(Debug, Drop)]
pub enum ParseError<F> {
    /// What is wrong with the bytes, the first of it.
    Fault(F),
    /// There was no memory for what was read.
    Memory,
}

impl<F> From<AllocError> for ParseError<F> {
    ghost from_gives = { λ _ error. error ≡ errors.Memory };

    fn from(_error: AllocError) -> ParseError<F> {
        ParseError::Memory
    }
}

impl<F: Fault> From<F> for ParseError<F> {
    ghost from_gives = { λ fault error. error ≡ errors.Fault fault };

    fn from(fault: F) -> ParseError<F> {
        ParseError::Fault(fault)
    }
}

/// Why a file was not read.
#[derive(Debug, Drop)]
pub enum FileError<F> {
    /// What is wrong with the file's bytes, the first of it.
    Fault(F),
    /// The depot failed, and has counted a fault of the file's name.
    Read(Failed),
    /// There was no memory for the bytes, or for what was read.
    Memory,
}

impl<F> From<AllocError> for FileError<F> {
    ghost from_gives = { λ _ error. error ≡ file_errors.Memory };

    fn from(_error: AllocError) -> FileError<F> {
        FileError::Memory
    }
}

/// The answer of a reader of bytes, as that of a reader of files.
pub fn widen<X, F>(parsed: Result<X, ParseError<F>>) -> Result<X, FileError<F>>
    ensures { result ≡ widened parsed }
{
    match parsed {
        Ok(x) => Ok(x),
        Err(ParseError::Fault(fault)) => Err(FileError::Fault(fault)),
        Err(ParseError::Memory) => Err(FileError::Memory),
    }
}
