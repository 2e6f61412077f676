//! What is wrong with an image.

use reader_answers::{Fault, FileError};
use thiserror::Error;

/// The first fault of an image. Places are offsets in bytes from the file's begin, and segments are
/// counted from 0.
#[derive(Debug, Drop, Error)]
pub enum ImageFault {
    /// The first 7 bytes are not those of every image.
    #[error("image bad magic")]
    BadMagic,
    /// The version is neither 1 nor 2.
    #[error("image bad version")]
    BadVersion,
    /// The field at `at` has a number that may not stand there.
    #[error("image bad field at {at}")]
    BadField { at: u32 },
    /// The file ends at `at`, within a field, the bytes of a segment or the digest.
    #[error("image short at {at}")]
    Short { at: u32 },
    /// The segment does not lie in DRAM.
    #[error("image out of range segment {segment}")]
    OutOfRange { segment: u32 },
    /// The segment begins below the end of the one before it.
    #[error("image overlap segment {segment}")]
    Overlap { segment: u32 },
    /// The 32 bytes from `at` on are not the SHA-256 of all bytes before them.
    #[error("image bad digest at {at}")]
    BadDigest { at: u32 },
    /// The image ends at `at`, and the file does not.
    #[error("image trailing at {at}")]
    Trailing { at: u32 },
    /// The file has more than `LIMIT` bytes; this comes before all other faults.
    #[error("image too long")]
    TooLong,
}

impl Fault for ImageFault {}

/// Why an image was not read.
pub type ImageError = FileError<ImageFault>;
