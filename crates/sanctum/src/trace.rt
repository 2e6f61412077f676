//! The command `llc`.

ghost use Rattle.std.specs.Prelude.{IfOk};
ghost use Rattle.sanctum.specs.Commands.{Llc};
ghost use Rattle.sanctum.specs.Outputs.{IsPrintable};
ghost use Rattle.sanctum.specs.Causes.{Rises, Serves};

use crate::output::Output;
use crate::status::Status;
use llc::{hits_are_computed, read_trace, tallies};
use sm_ports::Depot;
use std::alloc::Global;

/// What is counted of the trace of this name, region by region.
pub fn count_trace<D: Depot>(alloc: Global, name: &str, depot: &mut D) -> Result<Output, Status>
    ensures serves { Serves (Llc name.now) (D.contents depot.old) (Rises (D.faults depot.old) (D.faults depot.new)) result }
    ensures printable { IfOk result IsPrintable }
{
    // States that what is counted as hits are hits.
    hits_are_computed();
    let trace = read_trace(alloc, depot, name)?;
    let counted = tallies(alloc, &trace)?;
    Ok(Output::Tallies(counted))
}
