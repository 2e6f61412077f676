//! What is wrong with a script, or a schedule.

use reader_answers::{Fault, FileError};
use thiserror::Error;

/// What is wrong with a line, in the order in which it is tested.
#[derive(Debug, Drop, Error)]
pub enum LineKind {
    /// The first word begins no line, or a byte before the comment is not ASCII.
    #[error("unknown word")]
    UnknownWord,
    /// There are fewer words than the first one asks for.
    #[error("missing word")]
    MissingWord,
    /// There are more words than the first one asks for.
    #[error("extra word")]
    ExtraWord,
    /// An argument is no number that may stand there.
    #[error("bad number")]
    BadNumber,
    /// The core is none of the machine's.
    #[error("bad core")]
    BadCore,
}

/// The first fault of a script. Lines are counted from 1, the empty ones too.
#[derive(Debug, Drop, Error)]
pub enum ScriptFault {
    /// The script has more than `LIMIT` bytes; this comes before all other faults.
    #[error("script too long")]
    TooLong,
    /// The line is not of the grammar.
    #[error("script line {line} {kind}")]
    BadLine { line: u32, kind: LineKind },
    /// With this line the turns of its core pass their limit.
    #[error("script line {line} turns over")]
    TurnsOver { line: u32 },
    /// The line's first word is known, but its form is not carried out yet.
    #[error("script line {line} not built")]
    NotBuilt { line: u32 },
}

/// What is wrong with a schedule: the offset of its first item that is none, or `SCHEDULE_LIMIT` where it
/// has more bytes than that, which comes before all else.
#[derive(Debug, Drop, Error)]
#[error("schedule at {at}")]
pub struct ScheduleFault {
    pub at: u32,
}

impl Fault for ScriptFault {}

impl Fault for ScheduleFault {}

/// Why a script was not read.
pub type ScriptError = FileError<ScriptFault>;

/// Why a schedule was not read.
pub type ScheduleError = FileError<ScheduleFault>;
