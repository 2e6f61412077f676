//! Page-table entries (ptes) of Sv39: what one is at a level, where it stands and leads, and those that
//! the monitor writes.
#![tactic(auto)]

mod laws;
mod pte;
mod table;
#[cfg(test)]
mod tests;

pub use laws::{leaf_pte_is_a_leaf, pointer_pte_is_a_pointer, written_ptes_lead_to_their_pages};
pub use pte::{Access, Kind, classify, ppn_of};
pub use table::{leads_to_table, leaf_pte, pointer_pte, pte_place, table_led_to};
