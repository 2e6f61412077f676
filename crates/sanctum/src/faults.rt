//! The fault lines, and refusals.

ghost use Rattle.std.specs.Prelude.{◌≡◌, ◌≤◌, ◌+◌, ◌++◌, length};
ghost use Rattle.sm_ports.specs.Causes.{Rose};
ghost use Rattle.sanctum.specs.Answers.{IsRefusal, Prints};
ghost use Rattle.sanctum.specs.Faults.{numbered_line, image_fault_line, trace_fault_line, kind_text, script_line_text, turns_over_text, not_built_text, script_fault_line, asm_kind_text, asm_line_text, asm_fault_line, fault_line};

use crate::status::Status;
use image_read::ImageFault;
use llc::TraceFault;
use rv_asm::{AsmFault, AsmKind};
use script_read::{LineKind, ScriptFault};
use sm_ports::Sink;
use text_out::{Line, put_line};

/// A line with this text.
fn line_with(text: &str) -> Line
    requires { length text.now ≤ 100 }
    ensures { result ≡ text.now }
{
    let mut line = Line::new();
    line.text(text);
    line
}

/// A line that ends with a number.
#[tactic(auto, unfolding(crate::specs::Faults::numbered_line))]
fn line_numbered(front: &str, number: u32) -> Line
    requires { length front.now ≤ 100 }
    ensures { result ≡ numbered_line front.now number }
{
    let mut line = Line::new();
    line.text(front);
    line.number(u64::from(number));
    line.text("\n");
    line
}

#[tactic(auto, unfolding(crate::specs::Faults::image_fault_line))]
fn line_of_image_fault(fault: &ImageFault) -> Line
    ensures { result ≡ image_fault_line fault.now }
{
    match fault {
        ImageFault::BadMagic => line_with("refused: image bad magic\n"),
        ImageFault::BadVersion => line_with("refused: image bad version\n"),
        ImageFault::BadField { at } => line_numbered("refused: image bad field at ", *at),
        ImageFault::Short { at } => line_numbered("refused: image short at ", *at),
        ImageFault::OutOfRange { segment } => {
            line_numbered("refused: image out of range segment ", *segment)
        }
        ImageFault::Overlap { segment } => {
            line_numbered("refused: image overlap segment ", *segment)
        }
        ImageFault::BadDigest { at } => line_numbered("refused: image bad digest at ", *at),
        ImageFault::Trailing { at } => line_numbered("refused: image trailing at ", *at),
        ImageFault::TooLong => line_with("refused: image too long\n"),
    }
}

/// What is wrong with a line of a script.
#[tactic(auto, unfolding(crate::specs::Faults::kind_text))]
fn kind_name(kind: &LineKind) -> &'static str
    ensures text { result.now ≡ kind_text kind.now }
    ensures short { length result.now ≤ 20 }
{
    match kind {
        LineKind::UnknownWord => " unknown word\n",
        LineKind::MissingWord => " missing word\n",
        LineKind::ExtraWord => " extra word\n",
        LineKind::BadNumber => " bad number\n",
        LineKind::BadCore => " bad core\n",
    }
}

#[tactic(auto, unfolding(crate::specs::Faults::turns_over_text))]
fn turns_over() -> &'static str
    ensures text { result.now ≡ turns_over_text }
    ensures short { length result.now ≤ 20 }
{
    " turns over\n"
}

#[tactic(auto, unfolding(crate::specs::Faults::not_built_text))]
fn not_built() -> &'static str
    ensures text { result.now ≡ not_built_text }
    ensures short { length result.now ≤ 20 }
{
    " not built\n"
}

#[tactic(auto, unfolding(crate::specs::Faults::script_line_text))]
fn line_of_script(number: u32, kind: &str) -> Line
    requires { length kind.now ≤ 20 }
    ensures { result ≡ script_line_text number kind.now }
{
    let mut line = Line::new();
    line.text("refused: script line ");
    line.number(u64::from(number));
    line.text(kind);
    line
}

#[tactic(auto, unfolding(crate::specs::Faults::script_fault_line))]
fn line_of_script_fault(fault: &ScriptFault) -> Line
    ensures { result ≡ script_fault_line fault.now }
{
    match fault {
        ScriptFault::TooLong => line_with("refused: script too long\n"),
        ScriptFault::BadLine { line, kind } => line_of_script(*line, kind_name(kind)),
        ScriptFault::TurnsOver { line } => line_of_script(*line, turns_over()),
        ScriptFault::NotBuilt { line } => line_of_script(*line, not_built()),
    }
}

/// What is wrong with a line of an assembler text.
#[tactic(auto, unfolding(crate::specs::Faults::asm_kind_text))]
fn asm_kind_name(kind: AsmKind) -> &'static str
    ensures text { result.now ≡ asm_kind_text kind }
    ensures short { length result.now ≤ 20 }
{
    match kind {
        AsmKind::UnknownWord => " unknown word\n",
        AsmKind::BadOperand => " bad operand\n",
        AsmKind::OutOfRange => " out of range\n",
        AsmKind::UnknownLabel => " unknown label\n",
        AsmKind::DoubleLabel => " double label\n",
        AsmKind::TooLong => " too long\n",
    }
}

#[tactic(auto, unfolding(crate::specs::Faults::asm_line_text))]
fn line_of_asm(number: u32, kind: &str) -> Line
    requires { length kind.now ≤ 20 }
    ensures { result ≡ asm_line_text number kind.now }
{
    let mut line = Line::new();
    line.text("refused: asm line ");
    line.number(u64::from(number));
    line.text(kind);
    line
}

fn line_of_asm_fault(fault: &AsmFault) -> Line
    ensures { result ≡ asm_fault_line fault.now }
{
    line_of_asm(fault.line, asm_kind_name(fault.kind))
}

#[tactic(auto, unfolding(crate::specs::Faults::trace_fault_line))]
fn line_of_trace_fault(fault: &TraceFault) -> Line
    ensures { result ≡ trace_fault_line fault.now }
{
    match fault {
        TraceFault::TooLong => line_with("refused: trace too long\n"),
        TraceFault::BadLine { line } => line_numbered("refused: trace line ", *line),
    }
}

/// The line that is printed for an answer; there is none for Ok and for a write fault.
#[tactic(auto, unfolding(crate::specs::Faults::fault_line))]
pub fn line_of(status: &Status) -> Line
    ensures { result ≡ fault_line status.now }
{
    match status {
        Status::Ok | Status::WriteFault => Line::new(),
        Status::Usage => line_with("refused: usage\n"),
        Status::ImageRefused(fault) => line_of_image_fault(fault),
        Status::ScriptRefused(fault) => line_of_script_fault(fault),
        Status::ReadFault => line_with("refused: read fault\n"),
        Status::OutOfMemory => line_with("refused: out of memory\n"),
        Status::AsmRefused(fault) => line_of_asm_fault(fault),
        Status::TraceRefused(fault) => line_of_trace_fault(fault),
    }
}

/// Prints the fault line of an answer.
pub fn refuse<K: Sink>(out: &mut K, status: Status) -> Status
    requires { IsRefusal status }
    ensures prints { Prints (K.taken out.old) (K.taken out.new) (fault_line status) status result }
    ensures write_fault { result ≡ Status.WriteFault → Rose (K.faults out.old) (K.faults out.new) }
{
    match put_line(&line_of(&status), out) {
        Ok(()) => status,
        Err(_) => Status::WriteFault,
    }
}
