//! The check of all logs.

ghost use Rattle.std.specs.Prelude.{◌≡◌, ◌≤◌, ◌<◌, ◌+◌, ◌*◌, ◌^◌, length, slice_get, Some, IfOk, IfErr};
ghost use Rattle.legal_report.specs.Laid.{limit, LogsLaid};
ghost use Rattle.report_check.specs.Known.{IsKnown};
ghost use Rattle.report_check.specs.Logs.{LogPasses, FailsByLog, LogsPass, FailsByLogs};

use crate::known::Known;
use crate::log::check_log;
use legal_report::{CheckError, ReportFault};
use std::alloc::Global;

/// What comes behind the logs: the number of the first line there, and whether all tickets of the last core stood in
/// its log.
#[derive(Clone, Copy, Debug, PartialEq, Eq)]
pub struct Ended {
    pub line: u32,
    pub over: bool,
}

/// Checks the line that begins the log of this core, which has this number, and the event lines of the log; `over` says
/// whether all tickets of the core before it stood in its log.
fn take_log(
    alloc: Global,
    known: &Known,
    core: u8,
    text: &[u8],
    before: Ended,
) -> Result<Ended, CheckError>
    requires known { IsKnown known.now }
    requires core { core < known.now.calls.config.now.cores }
    requires size { length text.now ≤ limit }
    requires line { before.line + limit + 1 < 2 ^ 32 }
    ensures right { IfOk result (LogPasses known.now.calls core text.now before) }
    ensures wrong { IfErr result (FailsByLog known.now.calls core text.now before) }
    ensures few { IfOk result (λ ended. ended.line ≤ before.line + 1 + length text.now) }
{
    if !before.over {
        return Err(CheckError::Fault(ReportFault::Illegal { line: before.line }));
    }
    let passed = check_log(alloc, known, core, text, before.line + 1)?;
    Ok(Ended {
        line: before.line + 1 + passed.events,
        over: known.is_over(core, passed.entries),
    })
}

/// The text of a core's log.
fn text_of<'a>(logs: &[&'a [u8]], core: u8) -> &'a [u8]
    requires { core < length logs.now }
    ensures { slice_get logs.now core ≡ Some result }
{
    logs[usize::from(core)]
}

/// Checks the lines that begin the logs, the first of which has this number, and the event lines of the logs.
/// `CheckError::Fault` is the first line that is not right; it comes only where one is not, and always there unless
/// memory runs out.
#[tactic(auto, using(mon_types::specs::LimitLaws::few_cores))]
pub fn check_logs(
    alloc: Global,
    known: &Known,
    logs: &[&[u8]],
    first: u32,
) -> Result<Ended, CheckError>
    requires known { IsKnown known.now }
    requires laid { LogsLaid known.now.calls.config.now.cores logs.now }
    requires first { first ≤ limit + 3 }
    ensures right { IfOk result (LogsPass known.now.calls logs.now first) }
    ensures wrong { IfErr result (FailsByLogs known.now.calls logs.now first) }
    ensures few { IfOk result (λ ended. ended.line ≤ first + 16 * (limit + 1)) }
{
    let mut ended = Ended {
        line: first,
        over: true,
    };
    for core in 0..known.calls.config.cores() {
        let text = text_of(logs, core);
        ended = take_log(alloc, known, core, text, ended)?;
    }
    Ok(ended)
}
