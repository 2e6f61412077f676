//! DRAM: where its pages and words stand among physical addresses, the lanes of a word, and all its words
//! as one list.
//!
//! Word i holds the 8 bytes from the start of DRAM plus 8 * i on, so a page's 512 words stand one behind
//! the other.
#![tactic(auto)]

mod address;
mod lane;
mod laws;
mod memory;
#[cfg(test)]
mod tests;

pub use address::{
    DRAM_START, FIRST_FRAME, first_word, frame_of, page_of, page_of_frame, page_of_word,
    page_start, word_of, word_start,
};
pub use lane::{put, take};
pub use laws::stores_by_word;
pub use memory::Memory;
