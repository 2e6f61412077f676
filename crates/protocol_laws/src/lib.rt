//! The laws of calls as moves on shared words: what calls rely on of a state holds from the start and after each
//! call, and what a call owes at each of its moves it can give, whatever other cores do between them. No code here
//! runs: the definitions stand in `specs/`, and each function is a law that its contract states.
#![tactic(auto)]

mod laws;

pub use laws::{calls_are_safe, states_are_sound};
