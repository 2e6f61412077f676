//! The machine of many cores under a schedule: one core after the other takes a step, on one list of words.
//!
//! `Lab` has the words that the cores share (`word_list`), the cores (`core_machine`), and beside each core its log and
//! its answers. A step of a core is its private work up to its next move, and that move. Proved is that after its steps
//! a machine stands for the list of moves that the definitions give (`run_under` of `core_behaviour`), so that what it
//! leaves in the end is the finished run of the schedule (`IsFinishedBy`), of which `core_laws` has the laws.
#![tactic(auto)]

mod answers;
mod bench;
mod lab;
mod lab_core;
mod logging;
mod room;
mod stepping;

pub use lab::Lab;
