//! A failed call of a depot or a sink.

ghost use Rattle.std.specs.Prelude.{◌≡◌};
ghost use Rattle.sm_ports.specs.declared.failed.ReadError.TheVariants as errors;

use std::alloc::AllocError;

/// A depot or a sink failed at a call, and has counted the fault.
#[derive(Clone, Copy, Debug, PartialEq, Eq)]
pub struct Failed;

/// Why a file was not read.
#[derive(Clone, Copy, Debug, PartialEq, Eq)]
pub enum ReadError {
    /// The depot failed, and has counted a fault of the file's name.
    Failed,
    /// There was no memory for the bytes.
    Memory,
}

impl From<AllocError> for ReadError {
    ghost from_gives = { λ _ error. error ≡ errors.Memory };

    fn from(_error: AllocError) -> ReadError {
        ReadError::Memory
    }
}

impl From<Failed> for ReadError {
    ghost from_gives = { λ _ error. error ≡ errors.Failed };

    fn from(_failed: Failed) -> ReadError {
        ReadError::Failed
    }
}
