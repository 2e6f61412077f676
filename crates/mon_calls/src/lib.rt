//! One monitor call on the records of the objects that it tries: what it answers (`decide`), which records
//! an Ok leaves (`apply`), and what it does to the core (`core_change`). A core that holds locks has no
//! more than these records; what is said here is said of every state of the monitor that has them.
#![tactic(auto)]

mod enclaves;
mod mail;
mod on_core;
mod put;
mod records;
mod regions;
mod replies;
mod threads;

pub use on_core::core_change;
pub use records::apply;
pub use replies::decide;
