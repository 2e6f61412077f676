//! A law: a touch is safe exactly where the tickets of the entry lines of its log tell that it is. No code runs here.

ghost use Rattle.legal_report.specs.ByTickets.{TicketsTellTouches};

/// A touch line of a core's log is a safe one exactly where this holds of the tickets of the entry lines before it and
/// behind it: those before are below the block of its period, those behind above the beginning; the period's owner is one
/// for whom the core runs; of a freed period some flush of the log, at whichever place, stands between block and freeing;
/// and the period is not touched already. So what is asked of the flushes needs no look at where they stand.
pub fn tickets_tell_touches()
    ensures { TicketsTellTouches }
{}
