//! What readers of text files share: lines, words and numbers.
//!
//! Each is said twice in `specs/`: as a relation between bytes and what they stand for, and as a function
//! from the bytes, which the code meets. The laws that both say the same stand in `proofs/`, for the readers
//! to cite.
#![tactic(auto)]

mod class;
mod number;
#[cfg(test)]
mod tests;
mod text;

pub use class::{Class, is_name_byte, is_name_start};
pub use number::{
    canonical_number, capped_decimal, capped_unsigned, decimal_number, unsigned_number,
};
pub use text::{all_ascii, before_comment, count_words, next_line, next_word};
