//! What DRAM holds at the start of an image: the words of its segments, and zeros elsewhere.
#![tactic(auto)]

mod laws;
mod start;
#[cfg(test)]
mod tests;

pub use laws::start_by_word;
pub use start::start_memory;
