//! Images of a machine's memory as files: the reader, and the writers of the versions 1 and 2.
#![tactic(auto)]

mod fault;
mod fields;
mod head;
mod parts;
mod read;
#[cfg(test)]
mod read_tests;
mod tally;
#[cfg(test)]
mod tests;
mod write;

pub use fault::{ImageError, ImageFault};
pub use read::{LIMIT, parse_image, read_image};
pub use write::{write_image, write_image_2};
