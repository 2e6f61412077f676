//! The commands `run`, which `script` is with the plain machine, and `solo`.

ghost use Rattle.std.specs.Prelude.{◌≡◌, ◌≤◌, Some, None, IfOk, IfSome, IsOkUnless};
ghost use Rattle.image_read.specs.Image.{IsImage};
ghost use Rattle.solo.specs.Given.{IsOneScript};
ghost use Rattle.sanctum.specs.Commands as commands;
ghost use Rattle.sanctum.specs.Words.{source_said};
ghost use Rattle.sanctum.specs.Runs.{cores_given, IsRunReport};
ghost use Rattle.sanctum.specs.Outputs.{text_of, IsPrintable};
ghost use Rattle.sanctum.specs.Causes.{Rises, Serves};

use crate::orders::Source;
use crate::output::Output;
use crate::sources::read_source;
use crate::status::Status;
use image_read::ImageFault;
use mon_types::{Image, Script};
use script_read::{ScriptFault, read_script};
use sm_ports::Depot;
use solo::solo;
use std::alloc::Global;

/// The place of the count of cores in an image, in bytes.
const CORES_AT: u32 = 8;

/// Runs the script of this name on the machine of an image. No run has several cores yet, which is answered
/// once both were read.
pub fn run<D: Depot>(
    alloc: Global,
    source: &Source<'_>,
    name: &str,
    depot: &mut D,
) -> Result<Output, Status>
    ensures serves { Serves (commands.Run (source_said source.now) name.now) (D.contents depot.old) (Rises (D.faults depot.old) (D.faults depot.new)) result }
    ensures printable { IfOk result IsPrintable }
{
    let image = read_source(alloc, 1, source, depot)?;
    let script = read_script(alloc, depot, name, cores_of(source, &image))?;
    if script.cores.len() != 1 {
        return Err(Status::ScriptRefused(ScriptFault::NotBuilt { line: 0 }));
    }
    report_of(alloc, &image, script)
}

/// The same by the machine of one core, which takes no image of another count.
pub fn run_solo<D: Depot>(
    alloc: Global,
    source: &Source<'_>,
    name: &str,
    depot: &mut D,
) -> Result<Output, Status>
    ensures serves { Serves (commands.Solo (source_said source.now) name.now) (D.contents depot.old) (Rises (D.faults depot.old) (D.faults depot.new)) result }
    ensures printable { IfOk result IsPrintable }
{
    let image = read_source(alloc, 1, source, depot)?;
    if image.config.cores() != 1 {
        return Err(Status::ImageRefused(ImageFault::BadField { at: CORES_AT }));
    }
    let script = read_script(alloc, depot, name, Some(1))?;
    report_of(alloc, &image, script)
}

/// The count of cores below which a script may name one: that of an image in a file. Where the plain machine
/// is run there is none, since it has as many as the script names.
fn cores_of(source: &Source<'_>, image: &Image) -> Option<u8>
    ensures cores { result ≡ cores_given None (source_said source.now) image.now }
    ensures some { IfSome result (λ count. 1 ≤ count) }
{
    match source {
        Source::Plain => None,
        Source::File(_) => Some(image.config.cores()),
    }
}

/// Runs a script for one core on the machine of an image with one core.
fn report_of(alloc: Global, image: &Image, script: Script) -> Result<Output, Status>
    requires valid { IsImage 2 image.now }
    requires one { image.now.config.cores ≡ 1 }
    requires script { IsOneScript script.cores }
    ensures report { IfOk result (λ output. IsRunReport image.now script.cores (text_of output)) }
    ensures printable { IfOk result IsPrintable }
    ensures memory { IsOkUnless result Status.OutOfMemory }
{
    let finished = solo(alloc, image, script)?;
    Ok(Output::Report(finished))
}
