//! The image that a word names.

ghost use Rattle.std.specs.Prelude.{◌≡◌, ◌≤◌, ℕ, List, Err, IfOk};
ghost use Rattle.reader_answers.specs.declared.errors.FileError.TheVariants as errors;
ghost use Rattle.image_read.specs.Image.{IsImage};
ghost use Rattle.image_read.specs.declared.fault.ImageFault.{ImageFault};
ghost use Rattle.sanctum.specs.Commands.{IsNamed};
ghost use Rattle.sanctum.specs.Words.{source_said};
ghost use Rattle.sanctum.specs.Sources.{IsImageOf, IsOriginFault, plain_image};
ghost use Rattle.sanctum.specs.Causes.{Rises};

use crate::image::packed_image;
use crate::orders::Source;
use image_read::{ImageError, read_image};
use mon_types::{Config, Image};
use sm_ports::{Depot, Failed};
use std::alloc::{AllocError, Global};

/// The image that a source names; the plain machine has so many cores, 1 to 8.
///
/// The only errors of the plain machine's image are of memory; those of a file are the reader's.
pub fn read_source<D: Depot>(
    alloc: Global,
    cores: u8,
    source: &Source<'_>,
    depot: &mut D,
) -> Result<Image, ImageError>
    requires some { 1 ≤ cores }
    requires most { cores ≤ 8 }
    ensures found { IfOk result (IsImageOf (D.contents depot.old) cores (source_said source.now)) }
    ensures valid { IfOk result (IsImage 2) }
    ensures fault { (fault : ImageFault) → result ≡ Err (errors.Fault fault) → IsOriginFault (D.contents depot.old) (source_said source.now) fault }
    ensures read { (failed : Failed) → result ≡ Err (errors.Read failed) → IsNamed (Rises (D.faults depot.old) (D.faults depot.new)) (source_said source.now) }
    ensures contents { D.contents depot.new ≡ D.contents depot.old }
    ensures later { (other : List ℕ) → D.faults depot.old other ≤ D.faults depot.new other }
{
    match source {
        Source::Plain => Ok(plain_image(alloc, cores)?),
        Source::File(name) => read_image(alloc, depot, name),
    }
}

/// The image of the plain machine with so many cores.
pub fn plain_image(alloc: Global, cores: u8) -> Result<Image, AllocError>
    requires some { 1 ≤ cores }
    requires most { cores ≤ 8 }
    ensures image { IfOk result (λ image. image ≡ plain_image cores) }
    ensures valid { IfOk result (IsImage 2) }
{
    packed_image(alloc, Config::plain(cores), &[])
}
