//! The check of the bytes of a report.

ghost use Rattle.std.specs.Prelude.{◌≡◌, ◌≤◌, length, Ok, IfOk, IfErr};
ghost use Rattle.report_lines.specs.Lines.{ended_lines};
ghost use Rattle.legal_report.specs.Form.{form_of};
ghost use Rattle.legal_report.specs.Kept.{CallsLaid};
ghost use Rattle.legal_report.specs.Laid.{limit, AreCalls, LogsLaid, parsed_at};
ghost use Rattle.legal_report.specs.LegalReport.{IsLegalReport};
ghost use Rattle.report_check.specs.Known.{AreCallsOf};
ghost use Rattle.report_check.specs.Verdict.{FailsAt};

use crate::known::Known;
use crate::logs::check_logs;
use legal_report::{
    Calls, CheckError, Form, ReportFault, check_calls, find_periods, read_form, wrong_table,
};
use std::alloc::Global;

/// The calls of a report, the lines of which begin at the places of its form.
fn calls_of<'a>(bytes: &'a [u8], form: &'a Form) -> Calls<'a>
    requires size { length bytes.now ≤ limit }
    requires told { AreCalls form.now.config bytes.now form.now.calls }
    requires count { length form.now.calls ≤ length bytes.now }
    ensures places { AreCallsOf bytes.now form.now result }
    ensures laid { CallsLaid result }
{
    Calls {
        config: &form.config,
        bytes,
        places: form.calls.as_slice(),
    }
}

/// Checks the lines of a report, each of which has its form: the number of its calls, where no line fails.
fn check_lines(alloc: Global, bytes: &[u8], form: &Form) -> Result<u32, CheckError>
    requires size { length bytes.now ≤ limit }
    requires form { form_of (ended_lines bytes.now)
        ≡ Ok (parsed_at bytes.now form.now.config form.now.calls form.now.logs.items form.now.rest.now) }
    requires told { AreCalls form.now.config bytes.now form.now.calls }
    requires laid { LogsLaid form.now.config.cores form.now.logs.items }
    requires count { length form.now.calls ≤ length bytes.now }
    requires rest { length form.now.rest.now ≤ length bytes.now }
    ensures legal { IfOk result (IsLegalReport bytes.now) }
    ensures illegal { IfErr result (FailsAt bytes.now) }
{
    let calls = calls_of(bytes, form);
    let called = check_calls(alloc, &calls)?;
    let marks = find_periods(alloc, &calls)?;
    let known = Known {
        calls,
        marks: marks.as_slice(),
        tickets: called.tickets.as_slice(),
    };
    let count = form.calls.len() as u32;
    let logs = form.logs.as_slice();
    let ended = check_logs(alloc, &known, logs, 3 + count)?;
    if !ended.over {
        return Err(CheckError::Fault(ReportFault::Illegal { line: ended.line }));
    }
    let wrong = wrong_table(alloc, &called.monitor, form.rest, ended.line)?;
    match wrong {
        Some(line) => Err(CheckError::Fault(ReportFault::Illegal { line })),
        None => Ok(count),
    }
}

/// Checks the bytes of a report: the number of its calls, where it is legal. `CheckError::Fault` is the first line that
/// fails; it comes only where one does, and always there unless memory runs out.
pub fn check_bytes(alloc: Global, bytes: &[u8]) -> Result<u32, CheckError>
    requires { length bytes.now ≤ limit }
    ensures legal { IfOk result (IsLegalReport bytes.now) }
    ensures illegal { IfErr result (FailsAt bytes.now) }
{
    let form = read_form(alloc, bytes)?;
    check_lines(alloc, bytes, &form)
}
