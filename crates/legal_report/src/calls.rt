//! The lines of the calls, checked one after the other while the monitor runs.

ghost use Rattle.std.specs.Prelude.{◌≡◌, ◌<◌, ◌+◌, ◌^◌, ◌-◌, true, false, Some, None, length, take, slice_get, IfOk, IfErr};
ghost use Rattle.std.specs.Bool.{Decides};
ghost use Rattle.mon_types.specs.Replies.{is_concurrent};
ghost use Rattle.mon_model.specs.Tries.{tries, tried_set};
ghost use Rattle.mon_model.specs.Step.{reply_of};
ghost use Rattle.mon_seq.specs.Sequential.{then_call};
ghost use Rattle.hist.specs.Busy.{own};
ghost use Rattle.hist.specs.History.{digest_of};
ghost use Rattle.report_lines.specs.Fits.{FitsEntry};
ghost use Rattle.legal_report.specs.Counted.{state_behind};
ghost use Rattle.legal_report.specs.FirstFailing.{FirstWrongCall, FailsByCall};
ghost use Rattle.legal_report.specs.Kept.{CallsLaid, calls_told, KeepsTickets, IsDecidedAt};

use crate::busy::{Met, met_held_lock};
use crate::fault::{CheckError, ReportFault};
use crate::tickets::{Calls, ticket_at};
use hist::{Entry, PageInput};
use mon_seq::{Begun, Monitor};
use mon_types::{Items, Reply};
use std::alloc::Global;

/// The digest of the page that a call read, which other calls do not use.
fn digest_of(page: &Option<PageInput>) -> [u8; 32]
    ensures { result ≡ digest_of page.now }
{
    match page {
        Some(page) => page.digest,
        None => [0; 32],
    }
}

/// Makes a call that met no held lock: whether the monitor answers so, and tries these objects.
fn make(monitor: &mut Monitor, begun: &mut Begun, entry: &Entry) -> bool
    requires core { entry.now.core < monitor.old.state.shape.cores }
    requires ticket { monitor.old.ticket < 2 ^ 32 - 1 }
    ensures right { Decides result ((entry.now.reply ≡ reply_of monitor.old.state entry.now.core entry.now.call)
        × (entry.now.tried ≡ tried_set (tries monitor.old.state entry.now.core entry.now.call))) }
    ensures after { monitor.new ≡ then_call monitor.old entry.now.core entry.now.call (digest_of entry.now.page) }
{
    monitor.begin(entry.core, &entry.call, begun);
    let right = begun.reply == entry.reply && begun.tried == entry.tried;
    monitor.finish(entry.core, &entry.call, &digest_of(&entry.page), begun);
    right
}

/// Whether this is the ticket of the core's call with this serial.
fn has_ticket(tickets: &[u32], serial: u32, ticket: u32) -> bool
    ensures { Decides result (slice_get tickets.now serial ≡ Some ticket) }
{
    match ticket_at(tickets, serial as usize) {
        Some(found) => found == ticket,
        None => false,
    }
}

/// Whether call `k`, which is this entry, has its place as its ticket, and the number of its core's earlier calls as its
/// serial.
fn is_numbered(calls: &Calls, lists: &[Items<u32>], k: usize, entry: &Entry) -> bool
    requires size { length calls.now.places.now < 2 ^ 32 - 1 }
    requires tickets { KeepsTickets calls.now.config.now.cores (calls_told calls.now) lists.now }
    requires core { entry.now.core < calls.now.config.now.cores }
    requires call { slice_get (calls_told calls.now) k ≡ Some entry.now }
    requires k { k < length calls.now.places.now }
    ensures { Decides result ((entry.now.ticket ≡ k + 1)
        × (entry.now.serial ≡ length (own entry.now.core (take k (calls_told calls.now))))) }
{
    let ticket = k as u32 + 1;
    let tickets = lists[usize::from(entry.core)].as_slice();
    entry.ticket == ticket && has_ticket(tickets, entry.serial, ticket)
}

/// Makes call `k`, which is this entry: whether its line is right.
fn take_call(
    calls: &Calls,
    lists: &[Items<u32>],
    monitor: &mut Monitor,
    begun: &mut Begun,
    k: usize,
) -> bool
    requires laid { CallsLaid calls.now }
    requires tickets { KeepsTickets calls.now.config.now.cores (calls_told calls.now) lists.now }
    requires k { k < length calls.now.places.now }
    requires state { monitor.old ≡ record { state = state_behind calls.now.config.now (take k (calls_told calls.now)); ticket = k } }
    ensures right { IsDecidedAt calls.now k result }
    ensures after { result ≡ true → monitor.new ≡ record { state = state_behind calls.now.config.now (take (k + 1) (calls_told calls.now)); ticket = k + 1 } }
{
    let entry = calls.at(k);
    if !is_numbered(calls, lists, k, &entry) {
        return false;
    }
    match entry.reply {
        Reply::ConcurrentCall {
            lock,
            holder,
            serial,
        } => {
            let met = Met {
                lock,
                holder,
                serial,
            };
            let right = met_held_lock(calls, lists, monitor, k, &entry, met);
            monitor.skip();
            right
        }
        _ => make(monitor, begun, &entry),
    }
}

/// What is kept of the calls of a report, whose lines are all right: the monitor after them, and for each core the
/// tickets of its calls.
#[derive(Drop)]
pub struct Called {
    pub monitor: Monitor,
    pub tickets: Vec<Items<u32>>,
}

/// Checks the line of each call. `CheckError::Fault` is the first that is not right; it comes only where one is not, and
/// always there unless memory runs out.
pub fn check_calls(alloc: Global, calls: &Calls) -> Result<Called, CheckError>
    requires { CallsLaid calls.now }
    ensures right { IfOk result (λ called. FirstWrongCall calls.now.config.now (calls_told calls.now) None) }
    ensures wrong { IfErr result (λ e. FailsByCall calls.now.config.now (calls_told calls.now) e) }
    ensures state { IfOk result (λ called. called.monitor.state ≡ state_behind calls.now.config.now (calls_told calls.now)) }
    ensures tickets { IfOk result (λ called. KeepsTickets calls.now.config.now.cores (calls_told calls.now) called.tickets.items) }
{
    let tickets = calls.tickets(alloc)?;
    let mut monitor = Monitor::new(alloc, *calls.config)?;
    let mut begun = Begun::new();
    for k in 0..calls.places.len() {
        if !take_call(calls, &tickets, &mut monitor, &mut begun, k) {
            let line = k as u32 + 3;
            return Err(CheckError::Fault(ReportFault::Illegal { line }));
        }
    }
    Ok(Called { monitor, tickets })
}
