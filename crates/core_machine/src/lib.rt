//! One core, as a value that gives its next stop or move and is told the outcomes of its moves.
//!
//! `CoreMachine` keeps a core without its log and its answers, of which it has the counts, the lines of its script, and
//! the call that is under way. Proved is that it follows its course (`core_behaviour`): `next` gives the first move or
//! stop of what is left, and `took` leads to what is left behind that move; and that a line needs at most 600 answers
//! and 79 events, a Limit not counted.
//!
//! The lines `run`, `load` and `store` are not built yet (`AreScripted`).
#![tactic(auto)]

mod calling;
mod counting;
mod leaving;
mod lines;
mod machine;
mod own;
mod progress;
mod start;
mod step;
#[cfg(test)]
mod tests;
mod work;

pub use machine::CoreMachine;
pub use start::Machine;
pub use step::Step;
