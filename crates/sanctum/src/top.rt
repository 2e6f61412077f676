//! The top call.

ghost use Rattle.std.specs.Prelude.{◌≡◌, ◌⊎◌, ℕ, List, Some, None, IsSomeAnd, IfOk, Any};
ghost use Rattle.std.specs.Io.KnownBytes.{Appends};
ghost use Rattle.sm_ports.specs.Causes.{Rose};
ghost use Rattle.sm_ports.specs.Contents.{AppendsPart};
ghost use Rattle.image_read.specs.declared.fault.ImageFault.{ImageFault};
ghost use Rattle.script_read.specs.declared.fault.ScriptFault.{ScriptFault};
ghost use Rattle.rv_asm.specs.declared.fault.AsmFault.{AsmFault};
ghost use Rattle.llc.specs.declared.fault.TraceFault.{TraceFault};
ghost use Rattle.sanctum.specs.Commands.{Command, files_of};
ghost use Rattle.sanctum.specs.Words.{command_of, order_said};
ghost use Rattle.sanctum.specs.Headline.{IsOutput};
ghost use Rattle.sanctum.specs.Outputs.{IsPrintable};
ghost use Rattle.sanctum.specs.Faults.{fault_line};
ghost use Rattle.sanctum.specs.Causes.{IsImageFault, IsScriptFault, IsAsmFault, IsTraceFault, Rises, Serves, AreTold, AreGood};
ghost use Rattle.sanctum.specs.Answers.{IsMeant, IsRefusal, IsAnswer, Ends};

use crate::convert::convert;
use crate::faults::refuse;
use crate::orders::Order;
use crate::output::{Output, print};
use crate::pack::pack;
use crate::run::{run, run_solo};
use crate::status::Status;
use crate::trace::count_trace;
use crate::words::order_of_words;
use sm_ports::{Depot, Gate, Sink};
use std::alloc::Global;
use std::thread::Threads;

/// Carries out the command that the words give, over the files of `depot`, and prints to `out`. The
/// words are those after the program's name; `docs/program.md` has the table of commands.
pub fn sanctum<R: Threads + Sync, D: Depot, K: Sink, G: Gate>(
    _rt: &R,
    alloc: Global,
    words: &[String],
    depot: &mut D,
    out: &mut K,
    _gate: &G,
) -> Status
    // With Ok the sink has got the command's output, whole: of a run the report of the finished run, which is one
    // legal history; of `convert` and `pack` the one text of the image; of `llc` what is counted of the trace.
    ensures output { result ≡ Status.Ok → (text : List ℕ) × IsSomeAnd (command_of words.now) (λ command. IsOutput command (D.contents depot.old) text) × Appends (K.taken out.old) (K.taken out.new) text }

    // Each refusal comes exactly for its cause, and prints exactly its one line.
    ensures usage { command_of words.now ≡ None → (result ≡ Status.Usage) ⊎ (result ≡ Status.WriteFault) }
    ensures usage_only { result ≡ Status.Usage → command_of words.now ≡ None }
    ensures image_refused { (fault : ImageFault) → result ≡ Status.ImageRefused fault → IsSomeAnd (command_of words.now) (λ command. IsImageFault command (D.contents depot.old) fault) }
    ensures script_refused { (fault : ScriptFault) → result ≡ Status.ScriptRefused fault → IsSomeAnd (command_of words.now) (λ command. IsScriptFault command (D.contents depot.old) fault) }
    ensures asm_refused { (fault : AsmFault) → result ≡ Status.AsmRefused fault → IsSomeAnd (command_of words.now) (λ command. IsAsmFault command (D.contents depot.old) fault) }
    ensures trace_refused { (fault : TraceFault) → result ≡ Status.TraceRefused fault → IsSomeAnd (command_of words.now) (λ command. IsTraceFault command (D.contents depot.old) fault) }
    ensures read_fault { result ≡ Status.ReadFault → IsSomeAnd (command_of words.now) (λ command. Any (Rises (D.faults depot.old) (D.faults depot.new)) (files_of command)) }
    ensures one_line { IsRefusal result → Appends (K.taken out.old) (K.taken out.new) (fault_line result) }

    // A write fault comes only where the sink failed, which then has a proper prefix of what was to be written; what
    // was to be written has its cause, a read fault too.
    ensures write_fault { result ≡ Status.WriteFault → Rose (K.faults out.old) (K.faults out.new) }
    ensures prefix { result ≡ Status.WriteFault → (intended : Status) × (text : List ℕ) × IsMeant (command_of words.now) (D.contents depot.old) (Rises (D.faults depot.old) (D.faults depot.new)) intended text × AppendsPart (K.taken out.old) (K.taken out.new) text }

    // Good words and good files, with no count that rises, give the output, unless there is no memory.
    ensures complete { (command : Command) → command_of words.now ≡ Some command → AreTold command (D.contents depot.old) → AreGood command (D.contents depot.old) → (Any (Rises (D.faults depot.old) (D.faults depot.new)) (files_of command) → ⊥) → (Rose (K.faults out.old) (K.faults out.new) → ⊥) → (result ≡ Status.Ok) ⊎ (result ≡ Status.OutOfMemory) }
{
    carry_out(alloc, words, depot, out)
}

/// Carries out the command.
fn carry_out<D: Depot, K: Sink>(
    alloc: Global,
    words: &[String],
    depot: &mut D,
    out: &mut K,
) -> Status
    ensures ends { Ends (IsMeant (command_of words.now) (D.contents depot.old) (Rises (D.faults depot.old) (D.faults depot.new))) (K.taken out.old) (K.taken out.new) result }
    ensures write_fault { result ≡ Status.WriteFault → Rose (K.faults out.old) (K.faults out.new) }
{
    match answer(alloc, words, depot) {
        Ok(output) => print(&output, out),
        Err(refusal) => refuse(out, refusal),
    }
}

/// What is to be printed for the words, or why nothing is.
fn answer<D: Depot>(alloc: Global, words: &[String], depot: &mut D) -> Result<Output, Status>
    ensures answers { IsAnswer (command_of words.now) (D.contents depot.old) (Rises (D.faults depot.old) (D.faults depot.new)) result }
    ensures printable { IfOk result IsPrintable }
{
    match order_of_words(words) {
        None => Err(Status::Usage),
        Some(order) => serve(alloc, &order, depot),
    }
}

/// What is to be printed for an order, or why nothing is.
fn serve<D: Depot>(alloc: Global, order: &Order<'_>, depot: &mut D) -> Result<Output, Status>
    ensures serves { Serves (order_said order.now) (D.contents depot.old) (Rises (D.faults depot.old) (D.faults depot.new)) result }
    ensures printable { IfOk result IsPrintable }
{
    match order {
        Order::Run(image, script) => run(alloc, image, script, depot),
        Order::Solo(image, script) => run_solo(alloc, image, script, depot),
        Order::Convert(source) => convert(alloc, source, depot),
        Order::Pack(name, config) => pack(alloc, name, *config, depot),
        Order::Llc(name) => count_trace(alloc, name, depot),
    }
}
