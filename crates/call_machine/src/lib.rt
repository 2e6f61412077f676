//! One monitor call of a core, as a value that makes it move by move.
//!
//! `CallMachine` keeps what a call has found, and a phase. `tree_of` (specs/Meaning) says what it has still to do, as a
//! tree of the combinators of which `call_tree` (protocol) is made. Proved is that `begin` stands for the whole tree of
//! the call, that `next` is the first action of what is left, that `took` leaves what follows its outcome, and that
//! `done` is None exactly while moves are left. Each value has made, with all that it may make yet, at most 1,200
//! moves, and of a free at most 200 and the words of a region; `took` counts one.
//!
//! What the answer of `done` says is fixed at the Draw (`ends_after`): the reply of its draft, and where that is Ok
//! what the call does to its core by the state that is rebuilt from the rows. What `next` gives is permitted to every
//! view whose call under way has made the moves that lead to what is left (`LedTo`).
#![tactic(auto)]

mod begin;
mod deciding;
mod drawing;
mod early;
mod loading;
mod locking;
mod machine;
mod moves;
mod outcomes;
mod phase;
mod places;
mod rows;
#[cfg(test)]
mod tests;
mod work;
mod zeros;

pub use begin::{has_words, words};
pub use machine::CallMachine;
