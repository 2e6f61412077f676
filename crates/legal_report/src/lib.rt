//! What a legal report is: the form of its lines, and what each of them is checked for, as definitions over the lines
//! of its bytes; the reader of the form, the check of the calls, and of the lines behind the logs, and what the check of
//! the logs stands on. Laws say what the definitions find of small reports, that a report has one verdict, that each
//! report that is printed has the form, and what of a touch its tickets tell.
#![tactic(auto)]

mod busy;
mod calls;
mod closing;
mod drawn;
mod fault;
mod form;
mod least;
mod marks;
mod periods;
mod printed;
mod runs;
mod tables;
#[cfg(test)]
mod tests;
mod tickets;
mod touches;
mod verdicts;

pub use calls::{Called, check_calls};
pub use closing::wrong_table;
pub use drawn::Drawn;
pub use fault::{CheckError, ReportFault};
pub use form::{Form, LIMIT, read_form};
pub use least::{all_above, keep_least};
pub use marks::{Begin, Marks, first_above};
pub use periods::find_periods;
pub use printed::printed_have_form;
pub use runs::{calls_that_fail, ends_that_fail, events_that_fail, legal_ones};
pub use tables::first_difference;
pub use tickets::{Calls, ticket_at};
pub use touches::tickets_tell_touches;
pub use verdicts::one_verdict;
