//! What all event lines of a core's log tell of its calls.

ghost use Rattle.std.specs.Prelude.{◌≡◌, ◌≤◌, ◌<◌, length, IfOk, IfSome, Any};
ghost use Rattle.std.specs.Bool.{Decides};
ghost use Rattle.std.specs.List.Sorted.{IsNonDecreasing, IsPermutation};
ghost use Rattle.legal_report.specs.Least.{least_behind};
ghost use Rattle.report_lines.specs.Lines.{ended_lines};
ghost use Rattle.legal_report.specs.Form.{events_at};
ghost use Rattle.legal_report.specs.Kept.{CallsLaid, calls_told};
ghost use Rattle.legal_report.specs.Laid.{limit};
ghost use Rattle.report_check.specs.Whole.{IsWhole, Between, FlushedBetween};

use legal_report::{Calls, Drawn, first_above, keep_least};
use mon_types::Items;
use std::alloc::{AllocError, Global};

/// What all event lines of a core's log tell of its calls.
#[derive(Debug, Drop)]
pub struct Whole {
    /// How many event lines there are.
    pub events: u32,
    /// In place of the ticket of each entry line the least of it and those behind it.
    pub least: Items<u32>,
    /// The tickets of entry lines that name an Ok flush of the core, in ascending order.
    pub flushes: Items<u32>,
}

/// The same tickets in ascending order.
fn sorted(tickets: Items<u32>) -> Items<u32>
    ensures same { IsPermutation tickets result }
    ensures ascend { IsNonDecreasing result }
{
    let mut vec = tickets.into_vec();
    vec.sort_unstable();
    Items::from_vec(vec)
}

/// In place of each ticket the least of it and those behind it.
fn least_of(tickets: Items<u32>) -> Items<u32>
    ensures { result ≡ least_behind tickets }
{
    let mut vec = tickets.into_vec();
    keep_least(&mut vec);
    Items::from_vec(vec)
}

/// Whether one of the tickets, which ascend, is between these two.
fn is_between(tickets: &[u32], low: u32, high: u32) -> bool
    requires { IsNonDecreasing tickets.now }
    ensures { Decides result (Any (Between low high) tickets.now) }
{
    match first_above(tickets, low) {
        Some(ticket) => ticket < high,
        None => false,
    }
}

impl Whole {
    /// What the event lines with which this text begins tell, which are those of the core's log.
    pub fn of(alloc: Global, calls: &Calls, core: u8, text: &[u8]) -> Result<Whole, AllocError>
        requires laid { CallsLaid calls.now }
        requires size { length text.now ≤ limit }
        ensures { IfOk result (IsWhole (calls_told calls.now) core
            (events_at calls.now.config.now (ended_lines text.now)).0) }
    {
        let Drawn {
            events,
            tickets,
            flushes,
        } = calls.drawn(alloc, core, text)?;
        Ok(Whole {
            events,
            least: least_of(tickets),
            flushes: sorted(flushes),
        })
    }

    /// Whether the core flushed between the block and the freeing of a period, if it was freed.
    pub fn is_flushed(&self, blocked: Option<u32>, freed: Option<u32>) -> bool
        requires { IsNonDecreasing self.now.flushes }
        ensures { Decides result (FlushedBetween self.now.flushes blocked freed) }
    {
        match (blocked, freed) {
            (Some(low), Some(high)) => is_between(self.flushes.as_slice(), low, high),
            _ => true,
        }
    }
}
