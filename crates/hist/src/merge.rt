//! The entries of several logs, by ticket.

ghost use Rattle.std.specs.Prelude.{◌≡◌, map};
ghost use Rattle.std.specs.List.{AllByRecursion};
ghost use Rattle.std.specs.Iterator.{YieldsFirstRef, item_count};
ghost use Rattle.hist.specs.Logged.{events_of};
ghost use Rattle.hist.specs.History.{history, entries_of};
ghost use Rattle.hist.specs.Merging.{CanMerge, entries_left, BeginsWithEntry, IsEarliest, TakesIn};

use crate::event::{Entry, Event};
use crate::log::Log;
use mon_types::MOST_CORES;
use std::marker::Model;

/// The entries of up to 16 logs that are still to come, in the order of their tickets. Contracts see
/// them as a list. Takes no memory.
#[derive(Drop)]
pub struct Merge<'a> {
    /// The events of each log from its next entry on; empty for a log that is over, or missing.
    rests: [&'a [Event]; MOST_CORES],
}

impl<'a> Model for Merge<'a> {
    ghost use Rattle.std.specs.Prelude.{List};
    ghost use Rattle.hist.specs.declared.event.Entry.{Entry};
    ghost use Rattle.hist.specs.Merging.{left_by_ticket, AreStillLeft};

    ghost Value = { List Entry };

    ghost view = { λ m. left_by_ticket m.rests };

    ghost invariant = { λ m. AreStillLeft m.rests };
}

impl<'a> Merge<'a> {
    /// All entries of these logs, of which there are at most 16. The tickets ascend in each log, and no
    /// ticket stands in two.
    pub fn new(logs: &'a [Log]) -> Merge<'a>
        requires { CanMerge (events_of logs.now) }
        ensures { result ≡ history (events_of logs.now) }
    {
        let mut rests: [&'a [Event]; MOST_CORES] = [&[]; MOST_CORES];
        for (i, log) in logs.iter().enumerate() {
            rests[i] = from_entry(log.events());
        }
        Merge { rests }
    }
}

impl<'a> Iterator for Merge<'a> {
    type Item = &'a Entry;

    ghost next_gives = { YieldsFirstRef (λ m. m) };

    ghost remaining = { item_count (λ m. m) };

    /// The entry with the least ticket of those still to come.
    fn next(&mut self) -> Option<&'a Entry> {
        let First { entry, after, at } = earliest(&self.rests)?;
        self.rests[at] = from_entry(after);
        Some(entry)
    }
}

/// The events from the first entry on.
fn from_entry(events: &[Event]) -> &[Event]
    ensures same { entries_of result.now ≡ entries_of events.now }
    ensures begins { BeginsWithEntry result.now }
{
    let mut rest = events;
    while let [first, others @ ..] = rest {
        if let Event::Entry(_) = first {
            return rest;
        }
        rest = others;
    }
    rest
}

/// The first of the entries that are left, the events after it in its log, and which log that is.
#[derive(Clone, Copy)]
struct First<'a> {
    entry: &'a Entry,
    after: &'a [Event],
    at: usize,
}

/// The earlier one of the first entry so far and of that with which the next log begins.
fn earlier<'a>(first: Option<First<'a>>, rest: &'a [Event], at: usize) -> Option<First<'a>>
    requires { BeginsWithEntry rest.now }
    ensures { TakesIn (entries_of rest.now) at first.entry result }
{
    let [Event::Entry(entry), after @ ..] = rest else {
        return first;
    };
    match first {
        Some(found) if found.entry.ticket <= entry.ticket => first,
        _ => Some(First { entry, after, at }),
    }
}

/// The entry with the least ticket of those with which the logs begin.
fn earliest<'a>(rests: &[&'a [Event]; MOST_CORES]) -> Option<First<'a>>
    requires { AllByRecursion (λ rest. BeginsWithEntry rest.now) rests.now }
    ensures { IsEarliest (map entries_left rests.now) result }
{
    let mut first = None;
    for (at, rest) in rests.iter().enumerate() {
        first = earlier(first, rest, at);
    }
    first
}
