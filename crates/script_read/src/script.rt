//! Whole scripts.

ghost use Rattle.std.specs.Prelude.{◌≡◌, ◌≤◌, ℕ, List, length, Ok, Err, IfOk, IfSome};
ghost use Rattle.mon_types.specs.declared.script.Line.{Line};
ghost use Rattle.sm_ports.specs.Causes.{Rose};
ghost use Rattle.reader_answers.specs.declared.errors.FileError.TheVariants as errors;
ghost use Rattle.reader_answers.specs.Answers.{Gives, FileFound, FileOnly, FileExact};
ghost use Rattle.script_read.specs.Grammar.{limit, IsScript};
ghost use Rattle.script_read.specs.Reading.{all_said, script_of};
ghost use Rattle.script_read.specs.Answers.{AreFew, HaveFewTurns, HasCount};
ghost use Rattle.script_read.specs.Drafts.{Drafts};

use crate::draft::Draft;
use crate::fault::{ScriptError, ScriptFault};
use crate::line::read_line;
use mon_types::Script;
use reader_answers::{ParseError, widen};
use sm_ports::{Depot, Failed, ReadError, read_file};
use std::alloc::Global;
use text_in::next_line;

/// The most bytes of a script.
pub const LIMIT: usize = 1_048_576;

/// A script names cores below this number where no count of cores is given.
pub const MOST_CORES: u8 = 16;

/// Reads a script from a file of the depot. Where a count of cores is given, at least 1, the script has a
/// list of lines for each core below it; where none is given, for each core from 0 up to the greatest that
/// it names, or for core 0 alone.
///
/// `ScriptError::Fault` is the first fault of the file's bytes; it comes only where they are outside the
/// grammar or more than `LIMIT`, and always there unless memory or a read fails. `ScriptError::Read`
/// comes only where the depot's count of faults of `name` rose in this call.
pub fn read_script<D: Depot>(
    alloc: Global,
    depot: &mut D,
    name: &str,
    cores: Option<u8>,
) -> Result<Script, ScriptError>
    requires { IfSome cores (λ count. 1 ≤ count) }
    ensures found { FileFound (IsScript cores) (λ s. s.cores) (D.contents depot.old name.now) result }
    ensures only { FileOnly (IsScript cores) (λ s. s.cores) (D.contents depot.old name.now) result }
    ensures exact { FileExact (script_of cores) (λ s. s.cores) (D.contents depot.old name.now) result }
    ensures count { IfOk result (λ s. HasCount cores s.cores) }
    ensures few { IfOk result (λ s. AreFew s.cores) }
    ensures turns { IfOk result (λ s. HaveFewTurns s.cores) }
    ensures read { (failed : Failed) → result ≡ Err (errors.Read failed) → Rose (D.faults depot.old name.now) (D.faults depot.new name.now) }
    ensures contents { D.contents depot.new ≡ D.contents depot.old }
    ensures later { (other : List ℕ) → D.faults depot.old other ≤ D.faults depot.new other }
{
    read(alloc, depot, name, cores)
}

fn read<D: Depot>(
    alloc: Global,
    depot: &mut D,
    name: &str,
    cores: Option<u8>,
) -> Result<Script, ScriptError>
    requires { IfSome cores (λ count. 1 ≤ count) }
    ensures exact { FileExact (script_of cores) (λ s. s.cores) (D.contents depot.old name.now) result }
    ensures count { IfOk result (λ s. HasCount cores s.cores) }
    ensures few { IfOk result (λ s. AreFew s.cores) }
    ensures turns { IfOk result (λ s. HaveFewTurns s.cores) }
    ensures read { (failed : Failed) → result ≡ Err (errors.Read failed) → Rose (D.faults depot.old name.now) (D.faults depot.new name.now) }
    ensures contents { D.contents depot.new ≡ D.contents depot.old }
    ensures later { (other : List ℕ) → D.faults depot.old other ≤ D.faults depot.new other }
{
    match read_file(alloc, depot, name, LIMIT + 1) {
        Ok(bytes) => widen(parse_script(alloc, &bytes, cores)),
        Err(ReadError::Failed) => Err(ScriptError::Read(Failed)),
        Err(ReadError::Memory) => Err(ScriptError::Memory),
    }
}

/// Reads a script from its bytes. Where a count of cores is given, at least 1, the script has a list of
/// lines for each core below it; where none is given, for each core from 0 up to the greatest that it
/// names, or for core 0 alone.
///
/// `ParseError::Fault` is the first fault of the bytes; it comes only where they are outside the
/// grammar or more than `LIMIT`, and always there unless memory runs out.
pub fn parse_script(
    alloc: Global,
    bytes: &[u8],
    cores: Option<u8>,
) -> Result<Script, ParseError<ScriptFault>>
    requires { IfSome cores (λ count. 1 ≤ count) }
    // What is read is in the grammar.
    ensures found { IfOk result (λ s. IsScript cores bytes.now s.cores) }
    // What is in the grammar is read so, unless memory runs out.
    ensures only { (script : List (List Line)) → IsScript cores bytes.now script → Gives (λ s. s.cores) result (Ok script) }
    // Which fault it is.
    ensures exact { Gives (λ s. s.cores) result (script_of cores bytes.now) }
    ensures count { IfOk result (λ s. HasCount cores s.cores) }
    ensures few { IfOk result (λ s. AreFew s.cores) }
    ensures turns { IfOk result (λ s. HaveFewTurns s.cores) }
{
    parse(alloc, bytes, cores)
}

#[tactic(auto, unfolding(crate::specs::Reading::script_of))]
fn parse(alloc: Global, bytes: &[u8], cores: Option<u8>) -> Result<Script, ParseError<ScriptFault>>
    requires { IfSome cores (λ count. 1 ≤ count) }
    ensures exact { Gives (λ s. s.cores) result (script_of cores bytes.now) }
    ensures few { IfOk result (λ s. AreFew s.cores) }
{
    if bytes.len() > LIMIT {
        return Err(ParseError::Fault(ScriptFault::TooLong));
    }
    let draft = read_lines(alloc, bytes, cores.unwrap_or(MOST_CORES))?;
    Ok(draft.finish(cores))
}

/// What the lines say, where cores are below `count`.
fn read_lines(alloc: Global, bytes: &[u8], count: u8) -> Result<Draft, ParseError<ScriptFault>>
    requires bytes { length bytes.now ≤ limit }
    requires count { 1 ≤ count }
    ensures { Drafts count result (all_said count bytes.now) }
{
    let mut draft = Draft::new(alloc, count)?;
    let mut line = 0u32;
    let mut rest = bytes;
    while !rest.is_empty() {
        let (text, after) = next_line(rest);
        line += 1;
        if let Some(said) = read_line(count, line, text)? {
            draft.take(line, said)?;
        }
        rest = after;
    }
    Ok(draft)
}
