//! Laws: a report has one verdict. No code runs here.

ghost use Rattle.legal_report.specs.Verdicts.{LegalNeverFails, OneLineFails, OneCount};

/// No report is legal and has a line that fails; at most one line is the first that fails; and a legal report has one
/// count of calls.
pub fn one_verdict()
    ensures apart { LegalNeverFails }
    ensures line { OneLineFails }
    ensures count { OneCount }
{}
