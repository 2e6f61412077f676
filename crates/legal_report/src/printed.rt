//! A law: a report that is printed has the form of a report. No code runs here.

ghost use Rattle.legal_report.specs.Printed.{PrintedHaveForm};

/// The report of a finished run whose calls and events fit into lines has the form of a report: none of its lines fails
/// its form, and they tell its machine, its calls by ticket and the events of each log.
pub fn printed_have_form()
    ensures { PrintedHaveForm }
{}
