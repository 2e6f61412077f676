//! The wanted lines behind the logs.

ghost use Rattle.std.specs.Prelude.{◌≡◌, ◌+◌, ◌^◌, ◌<◌, ◌++◌, length, Some, IfOk};
ghost use Rattle.sm_ports.specs.Causes.{HasCause};
ghost use Rattle.text_out.specs.Written.{Writes};
ghost use Rattle.report.specs.Objects.{numbered};
ghost use Rattle.report.specs.Tables.{region_line, enclave_text, thread_text, core_lines};
ghost use Rattle.report_lines.specs.Lines.{ended_lines};
ghost use Rattle.legal_report.specs.Checks.{closing_text};
ghost use Rattle.legal_report.specs.Differs.{TablesAre};

use crate::tables::first_difference;
use mon_seq::Monitor;
use report::{end, put_cores, put_each};
use sm_ports::{Failed, Sink, VecSink};
use std::alloc::{AllocError, Global};
use text_out::put_piece;

/// More bytes than the lines behind the logs ever have.
const ROOM: usize = 65_536;

/// Puts the line of each region, and the lines of each slot that is not empty.
fn put_slots<K: Sink>(monitor: &Monitor, out: &mut K) -> Result<(), Failed>
    ensures lines { Writes (K.taken out.old) (K.taken out.new) result (numbered region_line 0 monitor.now.state.regions
        ++ numbered enclave_text 0 monitor.now.state.enclaves ++ numbered thread_text 0 monitor.now.state.threads) }
    ensures cause { HasCause (K.faults out.old) (K.faults out.new) result }
{
    put_each(monitor.regions(), out)?;
    put_each(monitor.enclaves(), out)?;
    put_each(monitor.threads(), out)
}

/// Puts the lines behind the logs of a report, for the state of this monitor.
fn put_closing<K: Sink>(monitor: &Monitor, out: &mut K) -> Result<(), Failed>
    ensures lines { Writes (K.taken out.old) (K.taken out.new) result (closing_text monitor.now.state) }
    ensures cause { HasCause (K.faults out.old) (K.faults out.new) result }
{
    put_slots(monitor, out)?;
    put_cores(monitor.modes(), monitor.flushed(), out)?;
    put_piece(end(), out)
}

/// The lines that are to stand behind the logs of a report, for the state of this monitor.
fn closing(alloc: Global, monitor: &Monitor) -> Result<VecSink, AllocError>
    ensures { IfOk result (λ sink. ⟦<VecSink as Sink>⟧.taken sink ≡ Some (closing_text monitor.now.state)) }
{
    let mut sink = VecSink::new(alloc, ROOM, Vec::new(alloc))?;
    match put_closing(monitor, &mut sink) {
        Ok(()) => Ok(sink),
        Err(_) => Err(AllocError),
    }
}

/// The number of the first line behind the logs, counted from `first`, that is not the one which the state of this
/// monitor wants there, is missing, or is one too many; None where there is none.
pub fn wrong_table(
    alloc: Global,
    monitor: &Monitor,
    there: &[u8],
    first: u32,
) -> Result<Option<u32>, AllocError>
    requires { first + length there.now < 2 ^ 32 }
    // The checks of these lines pass, or that of this line is the first that does not.
    ensures { IfOk result (TablesAre first (ended_lines (closing_text monitor.now.state)) (ended_lines there.now)) }
{
    let wanted = closing(alloc, monitor)?;
    Ok(first_difference(wanted.as_slice(), there, first))
}
