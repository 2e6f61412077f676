//! The least of tickets and of those behind them.

ghost use Rattle.std.specs.Prelude.{◌≡◌, ℕ, ◌+◌, ◌<◌, List, length, drop, slice_get, IfSome};
ghost use Rattle.std.specs.Bool.{Decides};
ghost use Rattle.std.specs.List.{AllByRecursion};
ghost use Rattle.legal_report.specs.Least.{least_behind, lowered};

use crate::tickets::ticket_at;

/// Lowers the ticket at a place to the one behind it, where that is less.
fn lower(tickets: &mut [u32], at: usize)
    requires { at + 1 < length tickets.old }
    ensures { tickets.new ≡ lowered tickets.old at }
{
    if tickets[at + 1] < tickets[at] {
        tickets[at] = tickets[at + 1];
    }
}

/// Leaves in place of each ticket the least of it and those behind it.
pub fn keep_least(tickets: &mut [u32])
    ensures { tickets.new ≡ least_behind tickets.old }
{
    let mut at = tickets.len();
    while at > 1 {
        at -= 1;
        lower(tickets, at - 1);
    }
}

/// Whether there is no ticket at this place, or it is above this one.
fn is_none_or_above(least: &[u32], at: usize, since: u32) -> bool
    ensures { Decides result (IfSome (slice_get least.now at) (λ t. since < t)) }
{
    match ticket_at(least, at) {
        Some(ticket) => since < ticket,
        None => true,
    }
}

/// Whether all tickets from this place on are above this one, by what `keep_least` left of them.
pub fn all_above(least: &[u32], at: usize, since: u32) -> bool
    ensures { (tickets : List ℕ) → least.now ≡ least_behind tickets
        → Decides result (AllByRecursion (λ t. since < t) (drop at tickets)) }
{
    is_none_or_above(least, at, since)
}
