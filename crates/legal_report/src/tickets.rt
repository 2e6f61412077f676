//! The calls of a report by their places in its bytes, and the tickets of each core's calls.

ghost use Rattle.std.specs.Prelude.{◌≡◌, ◌<◌, ◌++◌, ◌∷◌, [], ◌+◌, Some, length, replicate, slice_get, slice_set, slice_index_or, OnOk, IfOk};
ghost use Rattle.report_lines.specs.Fits.{FitsEntry};
ghost use Rattle.legal_report.specs.Kept.{CallsLaid, calls_told, KeepsTickets, ticket_before};

use hist::Entry;
use mon_types::{Config, Items};
use report_lines::{next_line, read_call};
use std::alloc::{AllocError, Global};

/// The calls of a report: the line of each begins at one of these places of its bytes.
#[derive(Clone, Copy)]
pub struct Calls<'a> {
    pub config: &'a Config,
    pub bytes: &'a [u8],
    pub places: &'a [u32],
}

impl Calls<'_> {
    /// Call `k`, counted from 0.
    pub fn at(&self, k: usize) -> Entry
        requires laid { CallsLaid self.now }
        requires k { k < length self.now.places.now }
        ensures call { slice_get (calls_told self.now) k ≡ Some result }
        ensures fits { FitsEntry self.now.config.now result }
    {
        let (_, left) = self.bytes.split_at(self.places[k] as usize);
        let (line, _) = next_line(left);
        read_call(self.config, line).unwrap()
    }

    /// For each core the tickets of its calls, which are their places among all calls, counted from 1.
    pub fn tickets(&self, alloc: Global) -> Result<Vec<Items<u32>>, AllocError>
        requires { CallsLaid self.now }
        ensures { IfOk result (λ lists. KeepsTickets self.now.config.now.cores (calls_told self.now) lists.items) }
    {
        let mut lists = no_tickets(alloc, self.config.cores())?;
        for k in 0..self.places.len() {
            let entry = self.at(k);
            add_ticket(&mut lists, entry.core, k as u32 + 1)?;
        }
        Ok(lists)
    }
}

/// No tickets for any core.
fn no_tickets(alloc: Global, cores: u8) -> Result<Vec<Items<u32>>, AllocError>
    ensures { IfOk result (λ lists. lists.items ≡ replicate cores []) }
{
    let mut lists = Vec::new(alloc);
    for core in 0..cores {
        lists.push(Items::new(alloc))?;
    }
    Ok(lists)
}

/// Appends a ticket to those of a core.
fn add_ticket(lists: &mut Vec<Items<u32>>, core: u8, ticket: u32) -> Result<(), AllocError>
    requires { core < length lists.old.items }
    ensures { OnOk result (lists.new.items ≡ slice_set lists.old.items core (slice_index_or lists.old.items core [] ++ ticket ∷ [])) }
{
    lists[usize::from(core)].push(ticket)
}

/// The ticket of a core's call with this serial, if there is one.
pub fn ticket_at(tickets: &[u32], serial: usize) -> Option<u32>
    ensures { result ≡ slice_get tickets.now serial }
{
    tickets.get(serial).copied()
}

/// The ticket of the call before that with this serial, if there is one.
pub fn ticket_before(tickets: &[u32], serial: u32) -> Option<u32>
    ensures { result ≡ ticket_before tickets.now serial }
{
    if serial == 0 {
        None
    } else {
        ticket_at(tickets, serial as usize - 1)
    }
}
