//! The check of a core's log.

ghost use Rattle.std.specs.Prelude.{◌≡◌, ◌≤◌, ◌<◌, ◌+◌, ◌^◌, length, None, IfOk, IfErr};
ghost use Rattle.legal_report.specs.Laid.{limit};
ghost use Rattle.report_check.specs.Known.{IsKnown};
ghost use Rattle.report_check.specs.Log.{events_in, FirstWrongEvent, FailsByEvent, IsCounted};

use crate::event::is_right;
use crate::known::Known;
use crate::place::Place;
use crate::whole::Whole;
use legal_report::{CheckError, ReportFault};
use report_lines::{next_line, read_event};
use std::alloc::Global;

/// How many event lines a log has, and how many of them are entry lines.
#[derive(Clone, Copy, Debug, PartialEq, Eq)]
pub struct Passed {
    pub events: u32,
    pub entries: u32,
}

/// Checks the event lines with which this text begins, which are those of the core's log; the first line has this
/// number. `CheckError::Fault` is the first that is not right; it comes only where one is not, and always there unless
/// memory runs out.
pub fn check_log(
    alloc: Global,
    known: &Known,
    core: u8,
    text: &[u8],
    first: u32,
) -> Result<Passed, CheckError>
    requires known { IsKnown known.now }
    requires core { core < known.now.calls.config.now.cores }
    requires size { length text.now ≤ limit }
    requires first { first + length text.now < 2 ^ 32 }
    ensures right { IfOk result (λ passed. FirstWrongEvent known.now.calls core first
        (events_in known.now.calls.config.now text.now) None) }
    ensures wrong { IfErr result (FailsByEvent known.now.calls core first
        (events_in known.now.calls.config.now text.now)) }
    ensures counts { IfOk result (IsCounted (events_in known.now.calls.config.now text.now)) }
    ensures few { IfOk result (λ passed. passed.events ≤ length text.now) }
{
    let whole = Whole::of(alloc, &known.calls, core, text)?;
    let mut place = Place::at_start(alloc);
    let mut rest = text;
    for passed in 0..whole.events {
        let (line, behind) = next_line(rest);
        let event = read_event(known.calls.config, line).unwrap();
        if !is_right(known, core, &whole, &place, passed, event) {
            let line = first + passed;
            return Err(CheckError::Fault(ReportFault::Illegal { line }));
        }
        place.pass(&known.calls, core, event)?;
        rest = behind;
    }
    Ok(Passed {
        events: whole.events,
        entries: place.entries,
    })
}
