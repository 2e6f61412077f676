//! What a core does next.

use hist::Why;
use protocol::Move;

/// What a core does next: a stop, which its caller logs, or a move, whose outcome it is then told.
#[derive(Clone, Copy, Debug, PartialEq, Eq)]
pub enum Step {
    /// A stop at this line of its script, counted from 1.
    Stop { line: u32, why: Why },
    Move(Move),
}
