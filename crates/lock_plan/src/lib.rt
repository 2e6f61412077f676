//! Which objects a call tries, in which order, and which calls are refused before any object is tried.
#![tactic(auto)]

mod held;
mod laws;
mod plan;
mod refuse;
#[cfg(test)]
mod tests;
mod tried;

pub use held::Held;
pub use laws::{
    asking_gives_tries, first_settles, one_more_is_held, one_more_is_tried, tries_ascend,
};
pub use plan::next;
pub use refuse::refuse_early;
pub use tried::add_tried;
