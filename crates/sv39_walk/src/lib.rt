//! The page walk of Sv39: from a virtual address to a page frame number, or to a page fault.
//!
//! A walk asks for one page-table entry (pte) after the other, by its physical address. Who makes the walk
//! finds each and answers it, and so may look at the memory between two of them, or find that there is none.
#![tactic(auto)]

mod laws;
#[cfg(test)]
mod tests;
mod walk;

pub use laws::{
    addresses_are_places, relation_always_answers, relation_gives_one_answer,
    walks_are_the_relation,
};
pub use walk::{Walk, WalkState};
