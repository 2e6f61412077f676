//! The check of one event line.

ghost use Rattle.std.specs.Prelude.{◌≡◌, ◌<◌, List, ℕ};
ghost use Rattle.std.specs.Bool.{Decides};
ghost use Rattle.std.specs.List.Sorted.{IsNonDecreasing};
ghost use Rattle.report_lines.specs.Fits.{FitsEvent};
ghost use Rattle.legal_report.specs.Kept.{calls_told};
ghost use Rattle.legal_report.specs.Laid.{limit};
ghost use Rattle.legal_report.specs.Least.{least_behind};
ghost use Rattle.report_check.specs.Known.{IsKnown};
ghost use Rattle.report_check.specs.Event.{IsInTime, IsAllowed, IsSafeHere, IsNewHere, IsTouchHere, IsStopHere, DecidesEvent};

use crate::known::Known;
use crate::place::Place;
use crate::whole::Whole;
use hist::{Period, Why};
use legal_report::all_above;
use report_lines::EventLine;

/// Whether the tickets before and behind a touch of this period allow it.
fn is_in_time(whole: &Whole, place: &Place, period: &Period) -> bool
    ensures { (tickets : List ℕ) → whole.now.least ≡ least_behind tickets
        → Decides result (IsInTime tickets place.now period.now) }
{
    let before = place.is_before(period.blocked);
    let behind = all_above(whole.least.as_slice(), place.entries as usize, period.since);
    before && behind
}

/// Whether the period is open to the core, and where it was freed, the core flushed for it.
fn is_allowed(whole: &Whole, place: &Place, period: &Period) -> bool
    requires { IsNonDecreasing whole.now.flushes }
    ensures { Decides result (IsAllowed place.now whole.now period.now) }
{
    let mine = place.is_open_to(period.owner);
    let flushed = whole.is_flushed(period.blocked, period.freed);
    mine && flushed
}

/// Whether the core may touch this period now.
fn is_safe(whole: &Whole, place: &Place, period: &Period) -> bool
    requires { IsNonDecreasing whole.now.flushes }
    ensures { (tickets : List ℕ) → whole.now.least ≡ least_behind tickets
        → Decides result (IsSafeHere tickets place.now whole.now period.now) }
{
    let timely = is_in_time(whole, place, period);
    let allowed = is_allowed(whole, place, period);
    timely && allowed
}

/// Whether the core may touch this period, of this region since this ticket, and has not since its last clearing entry.
fn is_new(whole: &Whole, place: &Place, period: &Period, region: u8, since: u32) -> bool
    requires { IsNonDecreasing whole.now.flushes }
    ensures { (tickets : List ℕ) → whole.now.least ≡ least_behind tickets
        → Decides result (IsNewHere tickets place.now whole.now region since period.now) }
{
    let safe = is_safe(whole, place, period);
    let held = place.held.has(region, since);
    safe && !held
}

/// Whether a touch of a region of the machine is that of a period, and a safe one, and the first since the core's last
/// clearing entry.
fn is_touch(known: &Known, whole: &Whole, place: &Place, region: u8, since: u32) -> bool
    requires known { IsKnown known.now }
    requires region { region < known.now.calls.config.now.regions }
    requires ascend { IsNonDecreasing whole.now.flushes }
    ensures { (tickets : List ℕ) → whole.now.least ≡ least_behind tickets
        → Decides result (IsTouchHere (calls_told known.now.calls) tickets place.now whole.now region since) }
{
    match known.period(region, since) {
        Some(period) => is_new(whole, place, &period, region, since),
        None => false,
    }
}

/// Whether a core may stop at this line of its script now; `last` says that no event line follows.
fn is_stop(place: &Place, line: u32, why: &Why, last: bool) -> bool
    ensures { Decides result (IsStopHere place.now line why.now last) }
{
    let ends = match why {
        Why::Trap { .. } => true,
        Why::Limit => last,
    };
    line != 0 && place.stop <= line && ends
}

/// Whether an event line of a core's log is right, where so many were passed.
pub fn is_right(
    known: &Known,
    core: u8,
    whole: &Whole,
    place: &Place,
    passed: u32,
    event: EventLine,
) -> bool
    requires known { IsKnown known.now }
    requires core { core < known.now.calls.config.now.cores }
    requires ascend { IsNonDecreasing whole.now.flushes }
    requires fits { FitsEvent known.now.calls.config.now event }
    requires passed { passed < limit }
    ensures { DecidesEvent known.now.calls core place.now whole.now passed event result }
{
    match event {
        EventLine::Entry { ticket } => known.is_next(core, place.entries, ticket),
        EventLine::Touch { region, since } => is_touch(known, whole, place, region, since),
        EventLine::Stop { line, why } => is_stop(place, line, &why, whole.events == passed + 1),
    }
}
