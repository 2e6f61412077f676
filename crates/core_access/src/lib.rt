//! What one access of a core is made of, each part on its own: the causes of its faults, who translates its
//! address, whether a look at a region is good and is a touch, and the word of DRAM that it reads or writes.
//!
//! How the parts follow one another, from the translation cache through a page walk to a word, is the
//! machine's to say, which stands on this crate.
#![tactic(auto)]

mod cause;
mod laws;
mod look;
mod route;
#[cfg(test)]
mod tests;
mod touch;
mod word;

pub use cause::{ILLEGAL_INSTRUCTION, access_fault, is_aligned, misaligned, page_fault};
pub use laws::{
    admitted_satp_is_bare_or_a_root, own_words_tell, places_are_addresses, ranges_are_loaded,
};
pub use look::{owned_since, since_in_word};
pub use route::{Paging, Route, Space, paging_of};
pub use touch::{Touch, Touches};
pub use word::{combine_in, instruction_at, load_from, place_in, store_in};
