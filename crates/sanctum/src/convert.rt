//! The command `convert`.

ghost use Rattle.std.specs.Prelude.{IfOk};
ghost use Rattle.sanctum.specs.Commands.{Convert};
ghost use Rattle.sanctum.specs.Words.{source_said};
ghost use Rattle.sanctum.specs.Outputs.{IsPrintable};
ghost use Rattle.sanctum.specs.Causes.{Rises, Serves};

use crate::orders::Source;
use crate::output::Output;
use crate::sources::read_source;
use crate::status::Status;
use sm_ports::Depot;
use std::alloc::Global;

/// The image that a source names, to be written in version 2.
pub fn convert<D: Depot>(
    alloc: Global,
    source: &Source<'_>,
    depot: &mut D,
) -> Result<Output, Status>
    ensures serves { Serves (Convert (source_said source.now)) (D.contents depot.old) (Rises (D.faults depot.old) (D.faults depot.new)) result }
    ensures printable { IfOk result IsPrintable }
{
    let image = read_source(alloc, 1, source, depot)?;
    Ok(Output::Image2(image))
}
