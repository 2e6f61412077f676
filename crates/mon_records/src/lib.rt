//! Records that a core holds, as the words that it has read: the state rebuilt from them, and laws on it.
//! No code here runs: the definitions stand in `specs/`, and each function is a law that its contract
//! states.
#![tactic(auto)]

mod laws;

pub use laws::{
    answers_are_handed_on, early_words_fit, items_are_apart, rebuilt_states_stand_for_all,
    records_stay_in_range, states_are_readable,
};
