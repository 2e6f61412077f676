//! Laws: what the definition says of small reports that are written out by hand, one for each kind of check.

ghost use Rattle.std.specs.Prelude.{[]};
ghost use Rattle.legal_report.specs.LegalReport.{IsLegalReport, ReportFailsAt};
ghost use Rattle.legal_report.specs.Runs.{nothing_happened, one_flush, with_call, with_entry, with_events, with_end, forged_reply, late_ticket, late_serial, untried, own_lock, leading_zero, other_entry, no_period, twice, no_line, behind_limit, other_table, no_end, line_more, head};

/// A report in which nothing happened, and one of a flush.
pub fn legal_ones()
    ensures nothing { IsLegalReport nothing_happened 0 }
    ensures flush { IsLegalReport one_flush 1 }
{}

/// A call line fails by its form, by its ticket, its serial, its reply or what it tried, or because it names its own
/// core as the holder of a lock.
pub fn calls_that_fail()
    ensures form { ReportFailsAt (with_call leading_zero) 3 }
    ensures ticket { ReportFailsAt (with_call late_ticket) 3 }
    ensures serial { ReportFailsAt (with_call late_serial) 3 }
    ensures reply { ReportFailsAt (with_call forged_reply) 3 }
    ensures tried { ReportFailsAt (with_call untried) 3 }
    ensures busy { ReportFailsAt (with_call own_lock) 3 }
{}

/// An event line fails by its ticket, by a period that never began or was touched before, by a stop at no line, and
/// behind a limit; and the line behind the log, where a ticket did not stand in it.
pub fn events_that_fail()
    ensures entry { ReportFailsAt (with_entry other_entry) 5 }
    ensures left { ReportFailsAt (with_entry []) 5 }
    ensures period { ReportFailsAt (with_events no_period) 4 }
    ensures touched { ReportFailsAt (with_events twice) 5 }
    ensures stop { ReportFailsAt (with_events no_line) 4 }
    ensures limit { ReportFailsAt (with_events behind_limit) 4 }
{}

/// A line of a table fails where it is another, where it is missing, and where one follows the end; and a log that is
/// missing fails by form.
pub fn ends_that_fail()
    ensures table { ReportFailsAt (with_end other_table) 6 }
    ensures missing { ReportFailsAt (with_end no_end) 7 }
    ensures more { ReportFailsAt (with_end line_more) 8 }
    ensures log { ReportFailsAt head 3 }
{}
