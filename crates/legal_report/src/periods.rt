//! The periods of all regions, from the calls.

ghost use Rattle.std.specs.Prelude.{◌+◌, [], length, None, IfOk};
ghost use Rattle.legal_report.specs.Counted.{counted};
ghost use Rattle.legal_report.specs.FirstFailing.{FirstWrongCall};
ghost use Rattle.legal_report.specs.Kept.{CallsLaid, calls_told};
ghost use Rattle.legal_report.specs.Marks.{PeriodsTell};

use crate::marks::{Marks, note_all};
use crate::tickets::Calls;
use hist::note_slot;
use mon_types::SLOTS;
use std::alloc::{AllocError, Global};

/// What is kept of so many regions before any entry.
fn marks_at_start(alloc: Global, regions: u8) -> Result<Vec<Marks>, AllocError>
    ensures { IfOk result (λ marks. PeriodsTell [] 1 regions marks.items) }
{
    let mut marks = Vec::new(alloc);
    for region in 0..regions {
        marks.push(Marks::at_start(alloc)?)?;
    }
    Ok(marks)
}

/// For each region where its periods began and ended and where it was freed, by the calls of a report, whose lines are
/// all right.
pub fn find_periods(alloc: Global, calls: &Calls) -> Result<Vec<Marks>, AllocError>
    requires laid { CallsLaid calls.now }
    requires right { FirstWrongCall calls.now.config.now (calls_told calls.now) None }
    ensures { IfOk result (λ marks. PeriodsTell (counted (calls_told calls.now)) (length calls.now.places.now + 1)
        calls.now.config.now.regions marks.items) }
{
    let mut marks = marks_at_start(alloc, calls.config.regions())?;
    let mut initialized = [false; SLOTS];
    for k in 0..calls.places.len() {
        let entry = calls.at(k);
        note_all(&mut marks, &initialized, k as u32 + 1, &entry)?;
        note_slot(&mut initialized, &entry);
    }
    Ok(marks)
}
