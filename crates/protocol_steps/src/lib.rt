//! What one list of permitted moves of all cores leads to, by induction on the list. No code here runs: the
//! definitions stand in `specs/`, and each function is a law that its contract states.
#![tactic(auto)]

mod laws;

pub use laws::{
    all_at_rest, calls_may_go_on, each_move_keeps, given_stands, invariant_at_start,
    moves_are_right, moves_keep,
};
