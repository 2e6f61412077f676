//! What is known of the calls of a report while its logs are checked.

ghost use Rattle.std.specs.Prelude.{◌≡◌, ◌<◌, Some, None, slice_get};
ghost use Rattle.std.specs.Bool.{Decides};
ghost use Rattle.hist.specs.Period.{period_in};
ghost use Rattle.legal_report.specs.Counted.{counted, tickets_of};
ghost use Rattle.legal_report.specs.Kept.{calls_told};
ghost use Rattle.report_check.specs.Known.{IsKnown};

use hist::Period;
use legal_report::{Calls, Marks, ticket_at};
use mon_types::Items;

/// What is known of the calls of a report, whose lines are all right.
#[derive(Clone, Copy)]
pub struct Known<'a> {
    pub calls: Calls<'a>,
    /// The periods of each region.
    pub marks: &'a [Marks],
    /// The tickets of each core's calls.
    pub tickets: &'a [Items<u32>],
}

impl Known<'_> {
    /// The period of a region of the machine that began at this ticket, if one did.
    pub fn period(&self, region: u8, since: u32) -> Option<Period>
        requires known { IsKnown self.now }
        requires region { region < self.now.calls.config.now.regions }
        ensures { result ≡ period_in (counted (calls_told self.now.calls)) region since }
    {
        self.marks[usize::from(region)].period(region, since)
    }

    /// The ticket of a core's call behind so many, if there is one.
    fn ticket_behind(&self, core: u8, entries: u32) -> Option<u32>
        requires known { IsKnown self.now }
        requires core { core < self.now.calls.config.now.cores }
        ensures { result ≡ slice_get (tickets_of (calls_told self.now.calls) core) entries }
    {
        ticket_at(self.tickets[usize::from(core)].as_slice(), entries as usize)
    }

    /// Whether this is the ticket of a core's call behind so many.
    pub fn is_next(&self, core: u8, entries: u32, ticket: u32) -> bool
        requires known { IsKnown self.now }
        requires core { core < self.now.calls.config.now.cores }
        ensures { Decides result (slice_get (tickets_of (calls_told self.now.calls) core) entries ≡ Some ticket) }
    {
        match self.ticket_behind(core, entries) {
            Some(next) => next == ticket,
            None => false,
        }
    }

    /// Whether a core has no call behind so many.
    pub fn is_over(&self, core: u8, entries: u32) -> bool
        requires known { IsKnown self.now }
        requires core { core < self.now.calls.config.now.cores }
        ensures { Decides result (slice_get (tickets_of (calls_told self.now.calls) core) entries ≡ None) }
    {
        self.ticket_behind(core, entries).is_none()
    }
}
