//! A core and how far it is in its script.

use crate::own::{Counts, Own};
use crate::work::Work;
use call_machine::CallMachine;
use mon_types::{Items, Line};

/// A core and how far it is in its script.
#[derive(Debug, Drop)]
pub struct Progress {
    pub lines: Items<Line>,
    /// The present line, or the next one between two lines, counted from 0.
    pub at: u32,
    pub own: Own,
    pub work: Work,
    /// The call that is under way, or the last one.
    pub call: CallMachine,
    /// The counts at the begin of the present line.
    pub begun: Counts,
}
