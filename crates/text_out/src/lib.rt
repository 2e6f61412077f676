//! What writers of texts share: a text that is given to a sink piece by piece, and a line that is made in
//! a room of its own and put as one piece.
//!
//! What is put says the same of a text each time (`Writes`): the sink took it whole, or, where the call
//! failed, a proper prefix of it. The laws of texts that are put one after the other stand in `proofs/`,
//! for the writers to cite.
#![tactic(auto)]

mod line;
mod put;
#[cfg(test)]
mod tests;

pub use line::{LINE, Line};
pub use put::{put_line, put_piece};
