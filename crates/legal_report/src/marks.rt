//! The periods of one region, by ticket.

ghost use Rattle.std.specs.Prelude.{◌≡◌, ◌<◌, ◌≤◌, ◌++◌, [], true, ℕ, List, length, slice_get, OnOk, IfOk};
ghost use Rattle.mon_types.specs.Replies.{is_done};
ghost use Rattle.std.specs.Option.{option_map};
ghost use Rattle.std.specs.List.Sorted.{IsNonDecreasing};
ghost use Rattle.hist.specs.declared.event.Entry.{Entry};
ghost use Rattle.hist.specs.Period.{NamesOwner, period_in};
ghost use Rattle.hist.specs.Walk.{flag_of};
ghost use Rattle.legal_report.specs.Marks.{Rise, first_above, begun_at, owner_since, ticket_where, begin_with, IsNoted, AreNoted, MarksTell, period_by};

use crate::tickets::ticket_at;
use hist::{Entry, Period, is_end, is_freeing, owner_by};
use mon_types::{Items, Owner, SLOTS};
use std::alloc::{AllocError, Global};

/// The beginning of a period: its ticket, and who owns the region from there on.
#[derive(Clone, Copy, Debug, PartialEq, Eq)]
pub struct Begin {
    pub since: u32,
    pub owner: Owner,
}

/// Where the periods of a region began, where they ended, and where the region was freed; each ascends.
#[derive(Debug, Drop)]
pub struct Marks {
    pub begins: Items<Begin>,
    pub ends: Items<u32>,
    pub frees: Items<u32>,
}

/// Appends a ticket where this holds.
fn push_where(tickets: &mut Items<u32>, holds: bool, ticket: u32) -> Result<(), AllocError>
    ensures { OnOk result (tickets.new ≡ tickets.old ++ ticket_where holds ticket) }
{
    if holds { tickets.push(ticket) } else { Ok(()) }
}

/// Appends a beginning where there is an owner.
fn push_begin(begins: &mut Items<Begin>, owner: Option<Owner>, since: u32) -> Result<(), AllocError>
    ensures { OnOk result (begins.new ≡ begins.old ++ begin_with owner since) }
{
    match owner {
        Some(owner) => begins.push(Begin { since, owner }),
        None => Ok(()),
    }
}

/// The first of the tickets, which ascend, that is above this one, if there is one.
pub fn first_above(tickets: &[u32], ticket: u32) -> Option<u32>
    requires { IsNonDecreasing tickets.now }
    ensures { result ≡ first_above tickets.now ticket }
{
    let at = tickets.partition_point(|t| *t <= ticket);
    ticket_at(tickets, at)
}

/// The beginning at a place among these, if there is one.
fn begin_at(begins: &[Begin], at: usize) -> Option<Begin>
    ensures { result ≡ slice_get begins.now at }
{
    begins.get(at).copied()
}

impl Marks {
    /// Before any entry: the region is the OS's.
    pub(crate) fn at_start(alloc: Global) -> Result<Marks, AllocError>
        ensures { IfOk result (λ marks. (r : ℕ) → MarksTell [] 1 r marks) }
    {
        let mut begins = Items::new(alloc);
        begins.push(Begin {
            since: 0,
            owner: Owner::Os,
        })?;
        Ok(Marks {
            begins,
            ends: Items::new(alloc),
            frees: Items::new(alloc),
        })
    }

    /// Notes an entry with this ticket.
    fn note(
        &mut self,
        region: u8,
        initialized: &[bool; SLOTS],
        ticket: u32,
        entry: &Entry,
    ) -> Result<(), AllocError>
        requires region { region < 64 }
        requires names { is_done entry.now.reply ≡ true → NamesOwner entry.now.call }
        ensures { OnOk result (IsNoted region (flag_of initialized.now) ticket entry.now self.old self.new) }
    {
        push_begin(
            &mut self.begins,
            owner_by(region, initialized, entry),
            ticket,
        )?;
        push_where(&mut self.ends, is_end(region, entry), ticket)?;
        push_where(&mut self.frees, is_freeing(region, entry), ticket)
    }

    /// The owner of the period that began at this ticket, if one did.
    fn owner_since(&self, since: u32) -> Option<Owner>
        requires { Rise 0 (begun_at self.now.begins) }
        ensures { result ≡ owner_since self.now.begins since }
    {
        let begins = self.begins.as_slice();
        let at = begins.partition_point(|begin| begin.since < since);
        match begin_at(begins, at) {
            Some(begin) if begin.since == since => Some(begin.owner),
            _ => None,
        }
    }

    /// The period of this region that began at this ticket, if one did.
    fn kept_period(&self, region: u8, since: u32) -> Option<Period>
        requires begins { Rise 0 (begun_at self.now.begins) }
        requires ends { Rise 0 self.now.ends }
        requires frees { Rise 0 self.now.frees }
        ensures { result ≡ option_map (period_by self.now region since) (owner_since self.now.begins since) }
    {
        let owner = self.owner_since(since)?;
        let blocked = first_above(self.ends.as_slice(), since);
        let freed = match blocked {
            Some(at) => first_above(self.frees.as_slice(), at),
            None => None,
        };
        Some(Period {
            region,
            owner,
            since,
            blocked,
            freed,
        })
    }

    /// The period of this region that began at this ticket, if one did, in the history that is kept here. Takes time that
    /// grows with the logarithm of the region's periods alone.
    pub fn period(&self, region: u8, since: u32) -> Option<Period>
        requires { (h : List Entry) × (n : ℕ) × MarksTell h n region self.now }
        ensures { (h : List Entry) (n : ℕ) → MarksTell h n region self.now → result ≡ period_in h region since }
    {
        self.kept_period(region, since)
    }
}

/// Notes an entry with this ticket at each region.
pub fn note_all(
    marks: &mut Vec<Marks>,
    initialized: &[bool; SLOTS],
    ticket: u32,
    entry: &Entry,
) -> Result<(), AllocError>
    requires regions { length marks.old.items ≤ 64 }
    requires names { is_done entry.now.reply ≡ true → NamesOwner entry.now.call }
    ensures { OnOk result (AreNoted (flag_of initialized.now) ticket entry.now marks.old.items marks.new.items) }
{
    for region in 0..marks.len() {
        marks[region].note(region as u8, initialized, ticket, entry)?;
    }
    Ok(())
}
