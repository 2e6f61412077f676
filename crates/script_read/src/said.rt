//! What the lines of a script say.

use mon_types::Line;

/// What a line of a script says that is not empty.
#[derive(Clone, Copy, Debug)]
pub enum Said {
    /// A line of the core whose lines are being told, other than a run.
    Line(Line),
    /// A run of that core, of so many turns.
    Run(u64),
    /// The lines behind this one are those of the core of this number.
    Core(u8),
}
