//! The calls on enclaves: create, load_table, load_page, init, delete, enclave_info, set_satp and
//! reserve.
//!
//! For each call `decide_x` gives the reply from the records of the objects that the call tries, where
//! the call was not refused before any object was tried. `after_x` gives the records that the call
//! leaves, at its ticket, where `decide_x` answered Ok; enclave_info and set_satp change none.
#![tactic(auto)]

mod after;
mod decide;
mod loading;
mod path;
#[cfg(test)]
mod tests;

pub use after::{after_create, after_delete, after_init, after_page, after_reserve, after_table};
pub use decide::{decide_create, decide_delete, decide_enclave_info, decide_init, decide_satp};
pub use loading::{decide_page, decide_reserve, decide_table};
pub use path::{address_of, is_load, path_length, ptes_fit};
