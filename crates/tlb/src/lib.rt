//! The translation cache: the translations that walks found last.
//!
//! It has 16 entries in 4 sets. The set of a virtual page is its number mod 4.
#![tactic(auto)]

mod cache;
mod entry;
mod laws;
#[cfg(test)]
mod tests;

pub use cache::Tlb;
pub use laws::{each_page_has_one_entry, fills_fit_in_sets, order_between_sets_is_not_seen};
