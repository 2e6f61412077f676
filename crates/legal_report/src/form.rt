//! The form of a report: which lines come where, and where in the bytes its parts stand.

ghost use Rattle.std.specs.Prelude.{◌≡◌, ◌≤◌, ◌<◌, ◌+◌, ◌^◌, ◌∷◌, Ok, length, drop, IfOk, IfErr, IfSome, IfNone, is_none};
ghost use Rattle.report_lines.specs.Reading.{event_in};
ghost use Rattle.report.specs.Events.{log_line};
ghost use Rattle.report_lines.specs.Lines.{ended_lines};
ghost use Rattle.legal_report.specs.Form.{calls_from, events_at, logs_from, form_of};
ghost use Rattle.legal_report.specs.Laid.{limit, log_or_call, calls_at, AreCalls, FailsWith, FailsLine, BeginsNoLog, logs_at, LogsLaid, HasHead, parsed_at};

use crate::fault::{CheckError, ReportFault};
use mon_types::{Config, Items};
use report::{line_of_log, title};
use report_lines::{next_line, read_call, read_event, read_machine};
use std::alloc::Global;

/// The most bytes of a report.
pub const LIMIT: usize = 67_108_864;

/// Whether the line, which has this number, begins the first log; else it is the line of a call.
fn is_log(config: &Config, line: u32, text: &[u8]) -> Result<bool, ReportFault>
    ensures { result ≡ log_or_call config.now line text.now }
{
    if text == line_of_log(0).as_slice() {
        return Ok(true);
    }
    match read_call(config, text) {
        Some(_) => Ok(false),
        None => Err(ReportFault::Illegal { line }),
    }
}

/// Where the lines of the calls stand from this place on, the first of which is the third line, and where the line that
/// begins the first log stands.
fn read_calls(
    alloc: Global,
    config: &Config,
    bytes: &[u8],
    first: usize,
) -> Result<(Items<u32>, usize), CheckError>
    requires first { first ≤ length bytes.now }
    requires size { length bytes.now ≤ limit }
    ensures calls { IfOk result (λ found. calls_from config.now 3 (ended_lines (drop first bytes.now))
        ≡ Ok (calls_at config.now bytes.now found.0, ended_lines (drop found.1 bytes.now))) }
    ensures told { IfOk result (λ found. AreCalls config.now bytes.now found.0) }
    ensures within { IfOk result (λ found. found.1 ≤ length bytes.now) }
    ensures count { IfOk result (λ found. length found.0 ≤ found.1) }
    ensures fails { IfErr result (λ e. FailsWith e (calls_from config.now 3 (ended_lines (drop first bytes.now)))) }
{
    let mut places = Items::new(alloc);
    let mut line = 3u32;
    let mut at = first;
    while at < bytes.len() {
        let (_, left) = bytes.split_at(at);
        let (text, _) = next_line(left);
        let over = is_log(config, line, text)?;
        if over {
            return Ok((places, at));
        }
        places.push(at as u32)?;
        at += text.len();
        line += 1;
    }
    Err(CheckError::Fault(ReportFault::Illegal { line }))
}

/// Whether the line is no event line.
fn ends_events(config: &Config, line: &[u8]) -> bool
    ensures { result ≡ is_none (event_in config.now line.now) }
{
    read_event(config, line).is_none()
}

/// How many event lines come first, and what stands behind them.
fn skip_events<'a>(config: &Config, text: &'a [u8]) -> (u32, &'a [u8])
    requires { length text.now ≤ limit }
    ensures count { result.0 ≡ length (events_at config.now (ended_lines text.now)).0 }
    ensures rest { ended_lines result.1.now ≡ (events_at config.now (ended_lines text.now)).1 }
    ensures size { result.0 + length result.1.now ≤ length text.now }
{
    let mut count = 0;
    let mut rest = text;
    while !rest.is_empty() {
        let (line, behind) = next_line(rest);
        if ends_events(config, line) {
            return (count, rest);
        }
        count += 1;
        rest = behind;
    }
    (count, rest)
}

/// What stands behind the line that begins the log of this core, where that line comes first.
fn log_begun(core: u8, text: &[u8]) -> Option<&[u8]>
    ensures begun { IfSome result (λ behind. ended_lines text.now ≡ log_line core ∷ ended_lines behind.now) }
    ensures none { IfNone result (BeginsNoLog core (ended_lines text.now)) }
    ensures shorter { IfSome result (λ behind. length behind.now < length text.now) }
{
    if text.is_empty() {
        return None;
    }
    let (line, behind) = next_line(text);
    if line == line_of_log(usize::from(core)).as_slice() {
        Some(behind)
    } else {
        None
    }
}

/// The logs of all cores, each from the line behind the one that begins it on, and what stands behind them. The first
/// line has this number.
fn read_logs<'a>(
    alloc: Global,
    config: &Config,
    text: &'a [u8],
    first: u32,
) -> Result<(Vec<&'a [u8]>, &'a [u8]), CheckError>
    requires size { length text.now ≤ limit }
    requires first { first + length text.now < 2 ^ 32 }
    ensures logs { IfOk result (λ found. logs_from config.now config.now.cores 0 first (ended_lines text.now)
        ≡ Ok (logs_at config.now found.0.items, ended_lines found.1.now)) }
    ensures laid { IfOk result (λ found. LogsLaid config.now.cores found.0.items) }
    ensures fewer { IfOk result (λ found. length found.1.now ≤ length text.now) }
    ensures fails { IfErr result (λ e. FailsWith e (logs_from config.now config.now.cores 0 first (ended_lines text.now))) }
{
    let mut logs = Vec::new(alloc);
    let mut line = first;
    let mut rest = text;
    for core in 0..config.cores() {
        let Some(behind) = log_begun(core, rest) else {
            return Err(CheckError::Fault(ReportFault::Illegal { line }));
        };
        logs.push(behind)?;
        let (count, after) = skip_events(config, behind);
        line += 1 + count;
        rest = after;
    }
    Ok((logs, rest))
}

/// The machine, and where the third line begins.
fn read_head(bytes: &[u8]) -> Result<(Config, usize), ReportFault>
    ensures head { IfOk result (λ found. HasHead bytes.now found.0 found.1) }
    ensures within { IfOk result (λ found. found.1 ≤ length bytes.now) }
    ensures fails { IfErr result (λ fault. FailsLine fault (form_of (ended_lines bytes.now))) }
{
    if bytes.is_empty() {
        return Err(ReportFault::Illegal { line: 1 });
    }
    let (first, rest) = next_line(bytes);
    if first != title() {
        return Err(ReportFault::Illegal { line: 1 });
    }
    if rest.is_empty() {
        return Err(ReportFault::Illegal { line: 2 });
    }
    let (second, _) = next_line(rest);
    match read_machine(second) {
        Some(config) => Ok((config, first.len() + second.len())),
        None => Err(ReportFault::Illegal { line: 2 }),
    }
}

/// Where the parts of a report stand: the line of each call begins at one of these places; each log's event lines are
/// those with which its text begins; and the rest is what stands behind the logs.
#[derive(Drop)]
pub struct Form<'a> {
    pub config: Config,
    pub calls: Items<u32>,
    pub logs: Vec<&'a [u8]>,
    pub rest: &'a [u8],
}

/// The form of the bytes of a report. `CheckError::Fault` is the first line that fails its form; it comes only where one
/// does, and always there unless memory runs out.
pub fn read_form<'a>(alloc: Global, bytes: &'a [u8]) -> Result<Form<'a>, CheckError>
    requires { length bytes.now ≤ limit }
    ensures form { IfOk result (λ form. form_of (ended_lines bytes.now)
        ≡ Ok (parsed_at bytes.now form.config form.calls form.logs.items form.rest.now)) }
    ensures told { IfOk result (λ form. AreCalls form.config bytes.now form.calls) }
    ensures laid { IfOk result (λ form. LogsLaid form.config.cores form.logs.items) }
    ensures count { IfOk result (λ form. length form.calls ≤ length bytes.now) }
    ensures rest { IfOk result (λ form. length form.rest.now ≤ length bytes.now) }
    ensures fails { IfErr result (λ e. FailsWith e (form_of (ended_lines bytes.now))) }
{
    let (config, first) = read_head(bytes)?;
    let (calls, at) = read_calls(alloc, &config, bytes, first)?;
    let (_, left) = bytes.split_at(at);
    let line = 3 + calls.len() as u32;
    let (logs, rest) = read_logs(alloc, &config, left, line)?;
    Ok(Form {
        config,
        calls,
        logs,
        rest,
    })
}
