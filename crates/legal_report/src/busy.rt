//! Calls that met a held lock.

ghost use Rattle.std.specs.Prelude.{◌≡◌, ℕ, ◌<◌, ◌+◌, true, Some, take, slice_get};
ghost use Rattle.std.specs.Bool.{Decides};
ghost use Rattle.mon_types.specs.declared.reply.Reply.TheVariants as replies;
ghost use Rattle.report_lines.specs.Fits.{is_of_machine};
ghost use Rattle.hist.specs.Busy.{has_tried, HasTaken, CallHasTaken, idle, MetHeldLock};
ghost use Rattle.legal_report.specs.Counted.{counted, state_behind};
ghost use Rattle.legal_report.specs.Kept.{CallsLaid, calls_told, KeepsTickets, BegunBy, NotOverBy};

use crate::tickets::{Calls, ticket_at, ticket_before};
use hist::Entry;
use mon_seq::Monitor;
use mon_types::{Config, Items, ObjectId, Reply, Tried, has_bit};

/// Whether an object of the machine is among those that a call tried.
#[tactic(auto, using(mon_types::specs::LimitLaws::few_cores, mon_types::specs::LimitLaws::few_regions))]
fn has_tried(config: &Config, tried: &Tried, object: ObjectId) -> bool
    requires { is_of_machine config.now object ≡ true }
    ensures { result ≡ has_tried tried.now object }
{
    let _machine = config.regions();
    match object {
        ObjectId::Enclave(e) => has_bit(u64::from(tried.enclaves), e),
        ObjectId::Thread(t) => has_bit(u64::from(tried.threads), t),
        ObjectId::Region(r) => has_bit(tried.regions, r),
        ObjectId::Cell(c) => has_bit(u64::from(tried.cells), c),
    }
}

/// Whether the call found this lock held.
fn has_met(reply: &Reply, lock: ObjectId) -> bool
    ensures { Decides result ((holder : ℕ) × (serial : ℕ) × (reply.now ≡ replies.ConcurrentCall lock holder serial)) }
{
    match *reply {
        Reply::ConcurrentCall { lock: other, .. } => other == lock,
        _ => false,
    }
}

/// Whether a call tried this lock, and did not find it held.
fn took(config: &Config, entry: &Entry, lock: ObjectId) -> bool
    requires { is_of_machine config.now lock ≡ true }
    ensures { Decides result (HasTaken lock entry.now) }
{
    let tried = has_tried(config, &entry.tried, lock);
    let met = has_met(&entry.reply, lock);
    tried && !met
}

/// The lock that a call found held, and the holder's call.
#[derive(Clone, Copy, Debug)]
pub struct Met {
    pub lock: ObjectId,
    pub holder: u8,
    pub serial: u32,
}

/// Whether the holder has such a call, and it took the lock.
fn has_taken(calls: &Calls, lists: &[Items<u32>], met: Met) -> bool
    requires laid { CallsLaid calls.now }
    requires tickets { KeepsTickets calls.now.config.now.cores (calls_told calls.now) lists.now }
    requires holder { met.holder < calls.now.config.now.cores }
    requires lock { is_of_machine calls.now.config.now met.lock ≡ true }
    ensures { Decides result (CallHasTaken (counted (calls_told calls.now)) idle met.holder met.serial met.lock) }
{
    let tickets = lists[usize::from(met.holder)].as_slice();
    let Some(ticket) = ticket_at(tickets, met.serial as usize) else {
        return false;
    };
    let entry = calls.at(ticket as usize - 1);
    took(calls.config, &entry, met.lock)
}

/// Whether the call before that with this serial, if there is one, has a ticket below this one.
fn had_begun(tickets: &[u32], serial: u32, ticket: u32) -> bool
    ensures { Decides result (BegunBy tickets.now serial ticket) }
{
    match ticket_before(tickets, serial) {
        Some(before) => before < ticket,
        None => true,
    }
}

/// Whether the call behind that with this serial, if there is one, has a ticket above that of the own call before that
/// with its serial, if there is one.
fn was_not_over(theirs: &[u32], serial: u32, own: &[u32], own_serial: u32) -> bool
    ensures { Decides result (NotOverBy theirs.now serial own.now own_serial) }
{
    match (
        ticket_at(theirs, serial as usize + 1),
        ticket_before(own, own_serial),
    ) {
        (Some(next), Some(before)) => before < next,
        _ => true,
    }
}

/// Whether the lock that call `k` found held, which is this entry, was one that another core's call had taken then. The
/// monitor is in the state in which the call was made.
pub fn met_held_lock(
    calls: &Calls,
    lists: &[Items<u32>],
    monitor: &Monitor,
    k: usize,
    entry: &Entry,
    met: Met,
) -> bool
    requires laid { CallsLaid calls.now }
    requires tickets { KeepsTickets calls.now.config.now.cores (calls_told calls.now) lists.now }
    requires call { slice_get (calls_told calls.now) k ≡ Some entry.now }
    requires ticket { entry.now.ticket ≡ k + 1 }
    requires core { entry.now.core < calls.now.config.now.cores }
    requires holder { met.holder < calls.now.config.now.cores }
    requires lock { is_of_machine calls.now.config.now met.lock ≡ true }
    requires state { monitor.now.state ≡ state_behind calls.now.config.now (take k (calls_told calls.now)) }
    ensures { Decides result (MetHeldLock calls.now.config.now (counted (calls_told calls.now)) idle entry.now met.lock met.holder met.serial) }
{
    if met.holder == entry.core {
        return false;
    }
    if !monitor.tries_up_to(entry.core, &entry.call, met.lock, &entry.tried) {
        return false;
    }
    if !has_taken(calls, lists, met) {
        return false;
    }
    let theirs = lists[usize::from(met.holder)].as_slice();
    let own = lists[usize::from(entry.core)].as_slice();
    had_begun(theirs, met.serial, entry.ticket)
        && was_not_over(theirs, met.serial, own, entry.serial)
}
