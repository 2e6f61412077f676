//! The history side of many cores. While the cores run there is one record that a proof about their moves keeps
//! (`Stands`): the history as a list, and a log for each core, in which each touch has a stamp. It grows by an entry,
//! a touch and a stop, and from it follows what is promised of logs. No code here runs: the definitions stand in
//! `specs/`, and each function is a law that its contract states.
#![tactic(auto)]

pub mod fields;
mod growth;
mod periods;
mod refusals;
mod results;
pub mod runs;
mod tried;

pub use growth::{stands_alike, stands_drawn, stands_start, stands_stopped, stands_touched};
pub use periods::{history_is_known, periods_are_states};
pub use refusals::{found_drawn, found_now, found_taken, notes_alike, notes_start, stands_busy};
pub use results::{legal_logs_stand, stands_counted, stands_held, stands_legal, stands_safe};
pub use tried::tried_and_their_set;
