//! The report of a finished run.

ghost use Rattle.std.specs.Prelude.{◌≡◌, length, OnOk, OnErr};
ghost use Rattle.std.specs.Io.KnownBytes.{Appends};
ghost use Rattle.hist.specs.Logged.{events_of};
ghost use Rattle.hist.specs.Merging.{CanMerge};
ghost use Rattle.hist.specs.Printing.{ArePrintable};
ghost use Rattle.sm_ports.specs.Causes.{HasCause};
ghost use Rattle.sm_ports.specs.Contents.{AppendsPart};
ghost use Rattle.report.specs.Tables.{core_lines};
ghost use Rattle.text_out.specs.Written.{Writes};
ghost use Rattle.report.specs.Report.{title_line, machine_line, end_line, head_text, calls_text, opening_text, slots_text, tables_text, records_text, report_text, HasAllCores};

use crate::calls::line_of_call;
use crate::print::put_each;
use crate::tables::line_of_core;
use hist::{Finished, Log, Merge};
use mon_types::{Config, Mode};
use sm_ports::{Failed, Sink};
use text_out::{Line, put_line, put_piece};

/// The first line.
#[tactic(auto, unfolding(crate::specs::Report::title_line))]
pub fn title() -> &'static [u8]
    ensures { result.now ≡ title_line }
{
    b"sanctum report 1\n"
}

/// The last line.
#[tactic(auto, unfolding(crate::specs::Report::end_line))]
pub fn end() -> &'static [u8]
    ensures { result.now ≡ end_line }
{
    b"end\n"
}

/// The line of a machine.
#[tactic(auto, unfolding(crate::specs::Report::machine_line))]
pub fn line_of_machine(config: &Config) -> Line
    ensures { result ≡ machine_line config.now }
{
    let mut line = Line::new();
    line.text("machine cores ");
    line.number(u64::from(config.cores()));
    line.text(" regions ");
    line.number(u64::from(config.regions()));
    line.text(" pages ");
    line.number(u64::from(config.pages()));
    line.text(" shift ");
    line.number(u64::from(config.shift()));
    line.text("\n");
    line
}

fn put_head<K: Sink>(config: &Config, out: &mut K) -> Result<(), Failed>
    ensures lines { Writes (K.taken out.old) (K.taken out.new) result (head_text config.now) }
    ensures cause { HasCause (K.faults out.old) (K.faults out.new) result }
{
    put_piece(title(), out)?;
    put_line(&line_of_machine(config), out)
}

/// Puts the lines of the calls of all cores, by ticket.
fn put_history<K: Sink>(logs: &[Log], out: &mut K) -> Result<(), Failed>
    requires merge { CanMerge (events_of logs.now) }
    requires printable { ArePrintable (events_of logs.now) }
    ensures lines { Writes (K.taken out.old) (K.taken out.new) result (calls_text logs.now) }
    ensures cause { HasCause (K.faults out.old) (K.faults out.new) result }
{
    for entry in Merge::new(logs) {
        put_line(&line_of_call(entry), out)?;
    }
    Ok(())
}

/// Puts the lines of the cores, by number: for whom each runs, and the ticket of its last flush.
pub fn put_cores<K: Sink>(modes: &[Mode], flushed: &[u32], out: &mut K) -> Result<(), Failed>
    requires { length modes.now ≡ length flushed.now }
    ensures lines { Writes (K.taken out.old) (K.taken out.new) result (core_lines 0 modes.now flushed.now) }
    ensures cause { HasCause (K.faults out.old) (K.faults out.new) result }
{
    for (c, mode) in modes.iter().enumerate() {
        put_line(&line_of_core(c, *mode, flushed[c]), out)?;
    }
    Ok(())
}

fn put_opening<K: Sink>(finished: &Finished, out: &mut K) -> Result<(), Failed>
    requires cores { HasAllCores finished.now }
    requires printable { ArePrintable (events_of finished.now.logs) }
    requires merge { CanMerge (events_of finished.now.logs) }
    ensures lines { Writes (K.taken out.old) (K.taken out.new) result (opening_text finished.now) }
    ensures cause { HasCause (K.faults out.old) (K.faults out.new) result }
{
    put_head(&finished.config, out)?;
    put_history(finished.logs.as_slice(), out)
}

fn put_slots<K: Sink>(finished: &Finished, out: &mut K) -> Result<(), Failed>
    ensures lines { Writes (K.taken out.old) (K.taken out.new) result (slots_text finished.now) }
    ensures cause { HasCause (K.faults out.old) (K.faults out.new) result }
{
    put_each(finished.enclaves.as_slice(), out)?;
    put_each(finished.threads.as_slice(), out)
}

fn put_tables<K: Sink>(finished: &Finished, out: &mut K) -> Result<(), Failed>
    requires { HasAllCores finished.now }
    ensures lines { Writes (K.taken out.old) (K.taken out.new) result (tables_text finished.now) }
    ensures cause { HasCause (K.faults out.old) (K.faults out.new) result }
{
    put_each(finished.regions.as_slice(), out)?;
    put_slots(finished, out)?;
    put_cores(finished.modes.as_slice(), finished.flushed.as_slice(), out)
}

fn put_records<K: Sink>(finished: &Finished, out: &mut K) -> Result<(), Failed>
    requires { HasAllCores finished.now }
    ensures lines { Writes (K.taken out.old) (K.taken out.new) result (records_text finished.now) }
    ensures cause { HasCause (K.faults out.old) (K.faults out.new) result }
{
    put_each(finished.logs.as_slice(), out)?;
    put_tables(finished, out)
}

fn put_report<K: Sink>(finished: &Finished, out: &mut K) -> Result<(), Failed>
    requires cores { HasAllCores finished.now }
    requires printable { ArePrintable (events_of finished.now.logs) }
    requires merge { CanMerge (events_of finished.now.logs) }
    ensures lines { Writes (K.taken out.old) (K.taken out.new) result (report_text finished.now) }
    ensures cause { HasCause (K.faults out.old) (K.faults out.new) result }
{
    put_opening(finished, out)?;
    put_records(finished, out)?;
    put_piece(end(), out)
}

/// Writes the report of a finished run, each line as one piece; the calls of all cores come by ticket.
/// Takes no memory. `Failed` comes only where the sink's
/// count of faults rose; the sink has then taken a proper prefix of the report.
pub fn report<K: Sink>(finished: &Finished, out: &mut K) -> Result<(), Failed>
    requires cores { HasAllCores finished.now }
    requires printable { ArePrintable (events_of finished.now.logs) }
    requires merge { CanMerge (events_of finished.now.logs) }
    ensures ok { OnOk result (Appends (K.taken out.old) (K.taken out.new) (report_text finished.now)) }
    ensures err { OnErr result (AppendsPart (K.taken out.old) (K.taken out.new) (report_text finished.now)) }
    ensures cause { HasCause (K.faults out.old) (K.faults out.new) result }
{
    put_report(finished, out)
}
