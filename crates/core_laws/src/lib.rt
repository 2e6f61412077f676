//! What a core does by its lines is permitted, and so every finished run is one legal history.
//!
//! No code here runs: the definitions stand in `specs/`, and each function is a law that its contract states.
#![tactic(auto)]

mod laws;

pub use laws::{
    every_schedule, finished_is_one_history, given_runs, inputs_are_said, lines_are_permitted,
    schedules,
};
