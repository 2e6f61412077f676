//! What always holds of the states of the sequential monitor. No code here runs: the facts stand in
//! `specs/`, and each function is a law that its contract states.
#![tactic(auto)]

mod laws;

pub use laws::{dates_stay, facts_stay, tables_stay};
