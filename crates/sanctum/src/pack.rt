//! The command `pack`.

ghost use Rattle.std.specs.Prelude.{◌≡◌, ◌≤◌, length, Some, IfOk};
ghost use Rattle.image_read.specs.Image.{image_text, IsImage};
ghost use Rattle.sanctum.specs.Commands.{Pack};
ghost use Rattle.sanctum.specs.Packing.{version_for};
ghost use Rattle.sanctum.specs.Outputs.{text_of, IsPrintable};
ghost use Rattle.sanctum.specs.Causes.{Rises, Serves};

use crate::image::{packed_image, word_limit};
use crate::output::Output;
use crate::status::Status;
use mon_types::{Config, Image};
use rv_asm::{LIMIT, assemble};
use sm_ports::{Depot, read_file};
use std::alloc::Global;

/// The most cores of an image of version 1.
const MOST_CORES_1: u8 = 8;

/// Assembles the text of this name into the image of a machine of this size.
pub fn pack<D: Depot>(
    alloc: Global,
    name: &str,
    config: Config,
    depot: &mut D,
) -> Result<Output, Status>
    ensures serves { Serves (Pack name.now config) (D.contents depot.old) (Rises (D.faults depot.old) (D.faults depot.new)) result }
    ensures printable { IfOk result IsPrintable }
{
    let bytes = read_file(alloc, depot, name, LIMIT + 1)?;
    let words = assemble(alloc, &bytes, word_limit(&config))?;
    let image = packed_image(alloc, config, &words)?;
    Ok(packed(image))
}

/// An image that is to be written in version 1 up to 8 cores, and in version 2 above.
fn packed(image: Image) -> Output
    requires { IsImage (version_for image.config) image }
    ensures text { text_of result ≡ image_text (version_for image.config) image }
    ensures printable { IsPrintable result }
{
    if image.config.cores() <= MOST_CORES_1 {
        Output::Image1(image)
    } else {
        Output::Image2(image)
    }
}
