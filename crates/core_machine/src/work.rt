//! What a core is at.

use core_context::Origin;

/// What follows a call.
#[derive(Clone, Copy, Debug, PartialEq, Eq)]
pub enum Purpose {
    /// It is the retry of a pending exit before a line, which follows.
    Retry,
    /// It is the call of a line, with which the line ends.
    Line,
}

/// What a core is at.
#[derive(Clone, Copy, Debug, PartialEq, Eq)]
pub enum Work {
    /// It is between two lines: the next one is to be begun, if there is one.
    Begins,
    /// The line is begun, and a pending exit was tried: it is to be carried out.
    Line,
    /// A call of this serial is made, or all its moves are made.
    Calls {
        origin: Origin,
        purpose: Purpose,
        serial: u32,
    },
    /// The script is over.
    Over,
}
