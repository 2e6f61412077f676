//! Laws of histories. No code here runs: each function's contract states one.

ghost use Rattle.hist.specs.Logged.{events_of};
ghost use Rattle.hist.specs.Legal.{Legal};
ghost use Rattle.hist.specs.Merging.{CanMerge};
ghost use Rattle.hist.specs.Printing.{ArePrintable};
ghost use Rattle.hist.specs.Laws.{LegalLogsMerge, LegalLogsPrint, EachLogIsItsPart, UntouchedIsCleared, ClearedIsUntouched, NeverBusyAlone, MeasuredByHistory, MeasuredAtLast};

use crate::finished::Finished;

/// Logs that are a legal history, of a machine of at most 16 cores, can be merged, and a report can tell each of
/// their entries.
pub fn legal_logs_are_reported()
    ensures merge { LegalLogsMerge }
    ensures print { LegalLogsPrint }
{}

/// The same of a finished run, whose machine has at most 16 cores as each has.
pub fn legal_run_is_reported(finished: &Finished)
    requires { Legal finished.now.config (events_of finished.now.logs) }
    ensures merge { CanMerge (events_of finished.now.logs) }
    ensures print { ArePrintable (events_of finished.now.logs) }
{
    legal_logs_are_reported();
    let _few = finished.config.cores();
}

/// Where logs are legal, the entries of the history that a core made are those of its log, in their order.
pub fn each_log_is_its_part()
    ensures { EachLogIsItsPart }
{}

/// The walk over a log that tells which periods its core has touched since its last clearing entry tells the same
/// as looking back from a touch to each earlier one.
pub fn touches_by_walk()
    ensures untouched { UntouchedIsCleared }
    ensures cleared { ClearedIsUntouched }
{}

/// On one core no call meets a held lock.
pub fn never_busy_alone()
    ensures { NeverBusyAlone }
{}

/// The measurement of every enclave slot that is not Empty is the chain over its items in the history:
/// what its Ok calls have added since its last Ok create.
pub fn measured_by_history()
    ensures after { MeasuredByHistory }
    ensures last { MeasuredAtLast }
{}
