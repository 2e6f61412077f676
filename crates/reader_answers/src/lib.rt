//! What a reader answers: its errors, whatever it is that it finds wrong in the bytes, and when each of them comes.
#![tactic(auto)]

mod errors;

pub use errors::{Fault, FileError, ParseError, widen};
