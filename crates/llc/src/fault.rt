//! What is wrong with a trace.

use reader_answers::{Fault, FileError};

/// The first fault of a trace. Lines are counted from 1, the empty ones too.
#[derive(Debug, Drop)]
pub enum TraceFault {
    /// The trace has more than `LIMIT` bytes; this comes before all other faults.
    TooLong,
    /// The line is not of the grammar. Where the first line that is not empty is missing, it is the line
    /// behind the last one.
    BadLine { line: u32 },
}

impl Fault for TraceFault {}

/// Why a trace was not read.
pub type TraceError = FileError<TraceFault>;
