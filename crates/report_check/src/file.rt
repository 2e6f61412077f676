//! The check of a file.

ghost use Rattle.std.specs.Prelude.{◌≡◌, ◌≤◌, ◌<◌, ◌+◌, ℕ, List, Err, Result, IfSome, IfOk, IfErr};
ghost use Rattle.sm_ports.specs.Causes.{Rose};
ghost use Rattle.reader_answers.specs.Answers.{FileGives};
ghost use Rattle.reader_answers.specs.declared.errors.FileError.TheVariants as errors;
ghost use Rattle.legal_report.specs.declared.fault.ReportFault.{ReportFault};
ghost use Rattle.report_check.specs.Verdict.{IsVerdict, IsAnswer};

use crate::check::check_bytes;
use crate::fault::ReportError;
use legal_report::{CheckError, LIMIT, ReportFault};
use sm_ports::{Depot, Failed, ReadError, read_file};
use std::alloc::Global;

/// The verdict on what was read of a file, which is at most one byte more than the limit.
fn judge(alloc: Global, bytes: &[u8]) -> Result<u32, ReportError>
    ensures verdict { IsAnswer bytes.now result }
    ensures read { (failed : Failed) → result ≡ Err (errors.Read failed) → ⊥ }
{
    if bytes.len() > LIMIT {
        return Err(ReportError::Fault(ReportFault::TooLong));
    }
    match check_bytes(alloc, bytes) {
        Ok(count) => Ok(count),
        Err(CheckError::Fault(fault)) => Err(ReportError::Fault(fault)),
        Err(CheckError::Memory) => Err(ReportError::Memory),
    }
}

fn check<D: Depot>(alloc: Global, depot: &mut D, name: &str) -> Result<u32, ReportError>
    ensures verdict { IfSome (D.contents depot.old name.now) (λ bytes. IsAnswer bytes result) }
    ensures read { (failed : Failed) → result ≡ Err (errors.Read failed) →
        Rose (D.faults depot.old name.now) (D.faults depot.new name.now) }
    ensures contents { D.contents depot.new ≡ D.contents depot.old }
    ensures later { (other : List ℕ) → D.faults depot.old other ≤ D.faults depot.new other }
{
    match read_file(alloc, depot, name, LIMIT + 1) {
        Ok(bytes) => judge(alloc, &bytes),
        Err(ReadError::Failed) => Err(ReportError::Read(Failed)),
        Err(ReadError::Memory) => Err(ReportError::Memory),
    }
}

/// Checks a report, a file of the depot: the number of its calls, where it is legal.
///
/// `ReportError::Fault` is `TooLong` exactly where the file has more than `LIMIT` bytes, and else `Illegal` with the
/// first line that fails; it comes only where one does, and always there unless memory or a read fails.
/// `ReportError::Read` comes only where the depot's count of faults of `name` rose in this call.
pub fn check_report<D: Depot>(alloc: Global, depot: &mut D, name: &str) -> Result<u32, ReportError>
    // What is answered is the verdict on the file.
    ensures verdict { IfSome (D.contents depot.old name.now) (λ bytes. IsAnswer bytes result) }
    // The verdict on the file is what is answered, unless memory or a read fails.
    ensures exact { IfSome (D.contents depot.old name.now) (λ bytes. (verdict : Result ℕ ReportFault) →
        IsVerdict bytes verdict → FileGives (λ n. n) result verdict) }
    ensures read { (failed : Failed) → result ≡ Err (errors.Read failed) →
        Rose (D.faults depot.old name.now) (D.faults depot.new name.now) }
    ensures contents { D.contents depot.new ≡ D.contents depot.old }
    ensures later { (other : List ℕ) → D.faults depot.old other ≤ D.faults depot.new other }
{
    check(alloc, depot, name)
}
