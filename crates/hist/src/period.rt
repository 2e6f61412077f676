//! Periods of ownership.

ghost use Rattle.std.specs.Prelude.{◌≡◌, ◌<◌, true, [], None, Some, if◌then◌else◌, nat_eq, IfSome};
ghost use Rattle.std.specs.List.{AllByRecursion};
ghost use Rattle.mon_types.specs.declared.region.Owner.TheVariants as owners;
ghost use Rattle.mon_types.specs.Owns.{os_word};
ghost use Rattle.mon_types.specs.Replies.{is_done};
ghost use Rattle.mon_model.specs.OnRegion.{sole_slot};
ghost use Rattle.hist.specs.Logged.{events_of};
ghost use Rattle.hist.specs.History.{history};
ghost use Rattle.hist.specs.Merging.{CanMerge};
ghost use Rattle.hist.specs.Period.{NameOwners, NamesOwner, period_in, owner_by, is_end, is_freeing};
ghost use Rattle.hist.specs.Walk.{flag_of, FlagsGoOn, begun_period, go_on, known_after};

use crate::event::Entry;
use crate::log::Log;
use crate::merge::Merge;
use mon_types::{Call, OS_WORD, Owner, SLOTS, has_bit};

/// A region's time with an owner, in a history: since the entry with ticket `since`, or since the start
/// where that is 0; blocked at one ticket and freed at a later one, if that came.
#[derive(Clone, Copy, Debug, PartialEq, Eq)]
pub struct Period {
    pub region: u8,
    pub owner: Owner,
    pub since: u32,
    pub blocked: Option<u32>,
    pub freed: Option<u32>,
}

/// The period of a region below 64 that began at ticket `since`; None exactly where none began then. At
/// 0, the start, one began for every region. The logs are such as can be merged; each assign that
/// answered Ok names the OS or a slot below 8.
pub fn period_of(logs: &[Log], region: u8, since: u32) -> Option<Period>
    requires logs { CanMerge (events_of logs.now) }
    requires region { region < 64 }
    requires owners { NameOwners (history (events_of logs.now)) }
    ensures { result ≡ period_in (history (events_of logs.now)) region since }
{
    let mut period = known_at_start(region, since);
    let mut initialized = [false; SLOTS];
    for entry in Merge::new(logs) {
        period = known_after(region, since, &initialized, period, entry);
        note_slot(&mut initialized, entry);
    }
    period
}

/// Before any entry the period of the start is known, and no other.
fn known_at_start(region: u8, since: u32) -> Option<Period>
    ensures { result ≡ period_in [] region since }
{
    (since == 0).then_some(begun_period(region, since, Owner::Os))
}

fn begun_period(region: u8, since: u32, owner: Owner) -> Period
    ensures { result ≡ begun_period region since owner }
{
    Period {
        region,
        owner,
        since,
        blocked: None,
        freed: None,
    }
}

/// The period, so far as it is known, after one more entry. `initialized` says of each enclave slot
/// whether it has an Ok init since its last Ok create.
fn known_after(
    region: u8,
    since: u32,
    initialized: &[bool; SLOTS],
    period: Option<Period>,
    entry: &Entry,
) -> Option<Period>
    requires region { IfSome period (λ p. p.region < 64) }
    requires owner { is_done entry.now.reply ≡ true → NamesOwner entry.now.call }
    ensures { result ≡ known_after region since (flag_of initialized.now) period entry.now }
{
    match period {
        Some(period) => Some(go_on(period, entry)),
        None if entry.ticket == since => {
            let owner = owner_by(region, initialized, entry)?;
            Some(begun_period(region, since, owner))
        }
        None => None,
    }
}

/// The period after one more entry.
fn go_on(period: Period, entry: &Entry) -> Period
    requires { period.region < 64 }
    ensures { result ≡ go_on period entry.now period.blocked period.freed }
{
    match (period.blocked, period.freed) {
        (None, _) if entry.ticket > period.since && is_end(period.region, entry) => Period {
            blocked: Some(entry.ticket),
            ..period
        },
        (Some(at), None) if entry.ticket > at && is_freeing(period.region, entry) => Period {
            freed: Some(entry.ticket),
            ..period
        },
        _ => period,
    }
}

/// Whether the entry is an Ok block of the region, or an Ok delete that tried it.
pub fn is_end(region: u8, entry: &Entry) -> bool
    requires { region < 64 }
    ensures { result ≡ is_end region entry.now }
{
    entry.reply.is_ok()
        && match entry.call {
            Call::Block { r } => r == u64::from(region),
            Call::Delete { .. } => has_bit(entry.tried.regions, region),
            _ => false,
        }
}

/// Whether the entry is an Ok free of the region.
pub fn is_freeing(region: u8, entry: &Entry) -> bool
    ensures { result ≡ is_freeing region entry.now }
{
    entry.reply.is_ok() && matches!(entry.call, Call::Free { r } if r == u64::from(region))
}

/// Whom the entry makes the owner of the region. `initialized` says of each enclave slot whether it has an
/// Ok init since its last Ok create; an assign that answered Ok names the OS or a slot below 8.
pub fn owner_by(region: u8, initialized: &[bool; SLOTS], entry: &Entry) -> Option<Owner>
    requires { is_done entry.now.reply ≡ true → NamesOwner entry.now.call }
    ensures { result ≡ owner_by region (flag_of initialized.now) entry.now }
{
    if !entry.reply.is_ok() {
        return None;
    }
    match entry.call {
        Call::Assign { r, to } if r == u64::from(region) => assigned(to, initialized),
        Call::AcceptRegion { r } if r == u64::from(region) => {
            Some(Owner::Enclave(sole_slot(entry.tried.enclaves)))
        }
        _ => None,
    }
}

/// Whom an assign makes the owner: an initialized enclave is only offered the region.
fn assigned(to: u64, initialized: &[bool; SLOTS]) -> Option<Owner>
    requires { (to ≡ os_word → ⊥) → to < 8 }
    ensures { result ≡ (if nat_eq to os_word then Some owners.Os else if flag_of initialized.now to then None else Some (owners.Enclave to)) }
{
    if to == OS_WORD {
        Some(Owner::Os)
    } else if initialized[to as usize] {
        None
    } else {
        Some(Owner::Enclave(to as u8))
    }
}

/// The slot in a set of one enclave slot.
fn sole_slot(set: u8) -> u8
    ensures { result ≡ sole_slot set }
{
    for slot in 0..8 {
        if has_bit(u64::from(set), slot) {
            return slot;
        }
    }
    0
}

/// Notes that an Ok init made its slot initialized, and an Ok create no longer so.
pub fn note_slot(initialized: &mut [bool; SLOTS], entry: &Entry)
    ensures { FlagsGoOn initialized.old initialized.new entry.now }
{
    if !entry.reply.is_ok() {
        return;
    }
    match entry.call {
        Call::Create { e, .. } if e < 8 => initialized[e as usize] = false,
        Call::Init { e } if e < 8 => initialized[e as usize] = true,
        _ => {}
    }
}
