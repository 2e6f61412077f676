//! The measurement of an enclave: a chain of SHA-256 digests over all that was loaded into it.
//!
//! The chain begins at `start`, and `extend` adds an `Item`, one for each call that loads. Enclaves that
//! were loaded by the same items in the same order have the same measurement, wherever their pages lie.
//! The record of an enclave holds its measurement as four words; `measure_created` and `measure_with`
//! work on these. No call here takes memory.
#![tactic(auto)]

mod chain;
mod item;
mod page;
mod record;
#[cfg(test)]
mod tests;
mod words;

pub use chain::{extend, start};
pub use item::Item;
pub use page::page_digest;
pub use record::{measure_created, measure_with};
pub use words::{to_bytes, to_words};
