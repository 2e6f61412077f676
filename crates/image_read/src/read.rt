//! The reader of whole images.

ghost use Rattle.std.specs.Prelude.{◌≡◌, ◌≤◌, ℕ, List, length, Ok, Err, IfOk};
ghost use Rattle.mon_types.specs.declared.image.Image.{Image};
ghost use Rattle.sm_ports.specs.Causes.{Rose};
ghost use Rattle.reader_answers.specs.declared.errors.FileError.TheVariants as errors;
ghost use Rattle.reader_answers.specs.Answers.{Gives, FileFound, FileOnly, FileExact};
ghost use Rattle.image_read.specs.Image.{IsImage};
ghost use Rattle.image_read.specs.Grammar.{IsImageText};
ghost use Rattle.image_read.specs.Reading.{limit, all_of, image_of};

use crate::fault::{ImageError, ImageFault};
use crate::head::head_of;
use crate::parts::{digest_end, segments_of, starts_of};
use mon_types::Image;
use reader_answers::{ParseError, widen};
use sm_ports::{Depot, Failed, ReadError, read_file};
use std::alloc::Global;

/// The most bytes of an image.
pub const LIMIT: usize = 4_195_632;

/// Reads an image of either version from a file of the depot.
///
/// `ImageError::Fault` is the first fault of the file's bytes; it comes only where they are outside the
/// grammar, and always there unless memory or a read fails. `ImageError::Read` comes only where the
/// depot's count of faults of `name` rose in this call.
pub fn read_image<D: Depot>(alloc: Global, depot: &mut D, name: &str) -> Result<Image, ImageError>
    ensures found { FileFound IsImageText (λ i. i) (D.contents depot.old name.now) result }
    ensures only { FileOnly IsImageText (λ i. i) (D.contents depot.old name.now) result }
    ensures exact { FileExact image_of (λ i. i) (D.contents depot.old name.now) result }
    // What was read can be written in version 2.
    ensures valid { IfOk result (IsImage 2) }
    ensures read { (failed : Failed) → result ≡ Err (errors.Read failed) → Rose (D.faults depot.old name.now) (D.faults depot.new name.now) }
    ensures contents { D.contents depot.new ≡ D.contents depot.old }
    ensures later { (other : List ℕ) → D.faults depot.old other ≤ D.faults depot.new other }
{
    match read_file(alloc, depot, name, LIMIT + 1) {
        Ok(bytes) => widen(parse_image(alloc, &bytes)),
        Err(ReadError::Failed) => Err(ImageError::Read(Failed)),
        Err(ReadError::Memory) => Err(ImageError::Memory),
    }
}

/// Reads an image of either version from its bytes.
///
/// `ParseError::Fault` is the first fault of the bytes; it comes only where they are outside the
/// grammar, and always there unless memory runs out.
pub fn parse_image(alloc: Global, bytes: &[u8]) -> Result<Image, ParseError<ImageFault>>
    // What is read is in the grammar.
    ensures found { IfOk result (λ image. IsImageText bytes.now image) }
    // What is in the grammar is read so, unless memory runs out.
    ensures only { (image : Image) → IsImageText bytes.now image → Gives (λ i. i) result (Ok image) }
    // Which fault it is.
    ensures exact { Gives (λ i. i) result (image_of bytes.now) }
{
    parse(alloc, bytes)
}

#[tactic(auto, unfolding(crate::specs::Reading::image_of))]
fn parse(alloc: Global, bytes: &[u8]) -> Result<Image, ParseError<ImageFault>>
    ensures { Gives (λ i. i) result (image_of bytes.now) }
{
    if bytes.len() > LIMIT {
        return Err(ParseError::Fault(ImageFault::TooLong));
    }
    parse_all(alloc, bytes)
}

/// The image of bytes that are not too many.
#[tactic(auto, unfolding(crate::specs::Reading::all_of))]
fn parse_all(alloc: Global, bytes: &[u8]) -> Result<Image, ParseError<ImageFault>>
    requires { length bytes.now ≤ limit }
    ensures { Gives (λ i. i) result (all_of bytes.now) }
{
    let head = head_of(bytes)?;
    let cores = head.config.cores();
    let starts = starts_of(alloc, bytes, cores)?;
    let at = 16 + 16 * usize::from(cores);
    let (segments, at) = segments_of(alloc, bytes, &head.config, head.segments, at)?;
    let end = digest_end(head.version, bytes, at)?;
    if end < bytes.len() {
        return Err(ParseError::Fault(ImageFault::Trailing { at: end as u32 }));
    }
    Ok(Image {
        config: head.config,
        starts,
        segments,
    })
}
