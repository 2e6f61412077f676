//! Whole traces.

ghost use Rattle.std.specs.Prelude.{◌≡◌, ◌≤◌, ◌<◌, ◌+◌, ◌^◌, ℕ, List, length, Ok, Err, IfOk};
ghost use Rattle.sm_ports.specs.Causes.{Rose};
ghost use Rattle.reader_answers.specs.declared.errors.FileError.TheVariants as errors;
ghost use Rattle.reader_answers.specs.Answers.{Gives, FileFound, FileOnly, FileExact};
ghost use Rattle.text_in.specs.Lines.{lines_of};
ghost use Rattle.llc.specs.declared.trace.Trace.{Trace};
ghost use Rattle.llc.specs.Grammar.{limit, IsTrace};
ghost use Rattle.llc.specs.Reading.{accesses_from, trace_behind, trace_from, trace_of};
ghost use Rattle.llc.specs.Answers.{FindsHead, CanRun};

use crate::fault::{TraceError, TraceFault};
use crate::line::{Head, read_access, read_first};
use crate::trace::Trace;
use mon_types::{Config, Items};
use reader_answers::{ParseError, widen};
use sm_ports::{Depot, Failed, ReadError, read_file};
use std::alloc::Global;
use text_in::next_line;

/// The most bytes of a trace.
pub const LIMIT: usize = 16_777_216;

/// Reads a trace from a file of the depot.
///
/// `TraceError::Fault` is the first fault of the file's bytes; it comes only where they are outside the
/// grammar or more than `LIMIT`, and always there unless memory or a read fails. `TraceError::Read` comes
/// only where the depot's count of faults of `name` rose in this call.
pub fn read_trace<D: Depot>(alloc: Global, depot: &mut D, name: &str) -> Result<Trace, TraceError>
    ensures found { FileFound IsTrace (λ t. t) (D.contents depot.old name.now) result }
    ensures only { FileOnly IsTrace (λ t. t) (D.contents depot.old name.now) result }
    ensures exact { FileExact trace_of (λ t. t) (D.contents depot.old name.now) result }
    ensures runs { IfOk result (λ trace. CanRun trace) }
    ensures read { (failed : Failed) → result ≡ Err (errors.Read failed) →
        Rose (D.faults depot.old name.now) (D.faults depot.new name.now) }
    ensures contents { D.contents depot.new ≡ D.contents depot.old }
    ensures later { (other : List ℕ) → D.faults depot.old other ≤ D.faults depot.new other }
{
    read(alloc, depot, name)
}

fn read<D: Depot>(alloc: Global, depot: &mut D, name: &str) -> Result<Trace, TraceError>
    ensures exact { FileExact trace_of (λ t. t) (D.contents depot.old name.now) result }
    ensures runs { IfOk result (λ trace. CanRun trace) }
    ensures read { (failed : Failed) → result ≡ Err (errors.Read failed) →
        Rose (D.faults depot.old name.now) (D.faults depot.new name.now) }
    ensures contents { D.contents depot.new ≡ D.contents depot.old }
    ensures later { (other : List ℕ) → D.faults depot.old other ≤ D.faults depot.new other }
{
    match read_file(alloc, depot, name, LIMIT + 1) {
        Ok(bytes) => widen(parse_trace(alloc, &bytes)),
        Err(ReadError::Failed) => Err(TraceError::Read(Failed)),
        Err(ReadError::Memory) => Err(TraceError::Memory),
    }
}

/// Reads a trace from its bytes.
///
/// `ParseError::Fault` is the first fault of the bytes; it comes only where they are outside the grammar
/// or more than `LIMIT`, and always there unless memory runs out.
pub fn parse_trace(alloc: Global, bytes: &[u8]) -> Result<Trace, ParseError<TraceFault>>
    // What is read is in the grammar.
    ensures found { IfOk result (λ trace. IsTrace bytes.now trace) }
    // What is in the grammar is read so, unless memory runs out.
    ensures only { (trace : Trace) → IsTrace bytes.now trace → Gives (λ t. t) result (Ok trace) }
    // Which fault it is.
    ensures exact { Gives (λ t. t) result (trace_of bytes.now) }
    ensures runs { IfOk result (λ trace. CanRun trace) }
{
    parse(alloc, bytes)
}

#[tactic(auto, unfolding(crate::specs::Reading::trace_of))]
fn parse(alloc: Global, bytes: &[u8]) -> Result<Trace, ParseError<TraceFault>>
    ensures { Gives (λ t. t) result (trace_of bytes.now) }
{
    if bytes.len() > LIMIT {
        return Err(ParseError::Fault(TraceFault::TooLong));
    }
    match find_head(bytes) {
        Ok((head, line, rest)) => read_behind(alloc, head, line, rest),
        Err(fault) => Err(ParseError::Fault(fault)),
    }
}

/// The trace with this head, and the accesses of the lines of these bytes, the first of which has this number.
fn read_behind(
    alloc: Global,
    head: Head,
    line: u32,
    bytes: &[u8],
) -> Result<Trace, ParseError<TraceFault>>
    requires { line + length bytes.now < 2 ^ 32 }
    ensures { Gives (λ t. t) result (trace_behind head line (lines_of bytes.now)) }
{
    let addresses = read_accesses(alloc, &head.config, line, bytes)?;
    Ok(Trace {
        config: head.config,
        ways: head.ways,
        addresses,
    })
}

/// The head, and the number and the place of the line behind it.
fn find_head(bytes: &[u8]) -> Result<(Head, u32, &[u8]), TraceFault>
    requires { length bytes.now ≤ limit }
    ensures read { FindsHead (trace_from 1 (lines_of bytes.now)) result }
    ensures within { IfOk result (λ found. found.1 + length found.2.now ≤ limit + 1) }
{
    let mut line = 1u32;
    let mut rest = bytes;
    while !rest.is_empty() {
        let (text, after) = next_line(rest);
        if let Some(head) = read_first(line, text)? {
            return Ok((head, line + 1, after));
        }
        line += 1;
        rest = after;
    }
    Err(TraceFault::BadLine { line })
}

/// The accesses of the lines of these bytes, the first of which has this number.
fn read_accesses(
    alloc: Global,
    config: &Config,
    first: u32,
    bytes: &[u8],
) -> Result<Items<u64>, ParseError<TraceFault>>
    requires { first + length bytes.now < 2 ^ 32 }
    ensures { Gives (λ t. t) result (accesses_from config.now first (lines_of bytes.now)) }
{
    let mut addresses = Items::new(alloc);
    let mut line = first;
    let mut rest = bytes;
    while !rest.is_empty() {
        let (text, after) = next_line(rest);
        let access = read_access(config, line, text)?;
        line += 1;
        if let Some(address) = access {
            addresses.push(address)?;
        }
        rest = after;
    }
    Ok(addresses)
}
