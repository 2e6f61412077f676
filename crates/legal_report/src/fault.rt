//! What is wrong with a report.

ghost use Rattle.std.specs.Prelude.{◌≡◌};
ghost use Rattle.legal_report.specs.declared.fault.CheckError.TheVariants as errors;

use std::alloc::{AllocError, AllocFailed};

/// Why a report is not legal. Lines are counted from 1.
#[derive(Debug, Drop)]
pub enum ReportFault {
    /// The file has more than `LIMIT` bytes; this comes before all other faults.
    TooLong,
    /// The first line that fails. Where a line is wanted and missing, it is the line behind the last one.
    Illegal { line: u32 },
}

/// Why bytes are not read as a report.
#[derive(Debug, Drop)]
pub enum CheckError {
    Fault(ReportFault),
    /// There was no memory for the places of the lines.
    Memory,
}

impl From<AllocError> for CheckError {
    ghost from_gives = { λ _ error. error ≡ errors.Memory };

    fn from(_error: AllocError) -> CheckError {
        CheckError::Memory
    }
}

impl<T: Drop> From<AllocFailed<T>> for CheckError {
    ghost from_gives = { λ _ error. error ≡ errors.Memory };

    fn from(_error: AllocFailed<T>) -> CheckError {
        CheckError::Memory
    }
}

impl From<ReportFault> for CheckError {
    ghost from_gives = { λ fault error. error ≡ errors.Fault fault };

    fn from(fault: ReportFault) -> CheckError {
        CheckError::Fault(fault)
    }
}
