//! Schedules.

ghost use Rattle.std.specs.Prelude.{◌≡◌, ◌≤◌, ℕ, List, length, Err};
ghost use Rattle.sm_ports.specs.Causes.{Rose};
ghost use Rattle.reader_answers.specs.declared.errors.FileError.TheVariants as errors;
ghost use Rattle.reader_answers.specs.Answers.{Gives, FileFound, FileOnly, FileExact};
ghost use Rattle.script_read.specs.Schedule.{schedule_limit, IsSchedule, core_of, steps_of, item_of, items_of, schedule_of};

use crate::fault::{ScheduleError, ScheduleFault};
use mon_types::{Items, StepItem};
use reader_answers::{ParseError, widen};
use sm_ports::{Depot, Failed, ReadError, read_file};
use std::alloc::Global;
use text_in::{Class, decimal_number};

/// The most bytes of a schedule.
pub const SCHEDULE_LIMIT: usize = 1_048_576;

/// Reads a schedule from a file of the depot, for a machine of so many cores.
///
/// `ScheduleError::Fault` is the first fault of the file's bytes; it comes only where they are outside the
/// grammar or more than `SCHEDULE_LIMIT`, and always there unless memory or a read fails.
/// `ScheduleError::Read` comes only where the depot's count of faults of `name` rose in this call.
pub fn read_schedule<D: Depot>(
    alloc: Global,
    depot: &mut D,
    name: &str,
    cores: u8,
) -> Result<Vec<StepItem>, ScheduleError>
    // What is read is in the grammar.
    ensures found { FileFound (IsSchedule cores) (λ items. items.items) (D.contents depot.old name.now) result }
    // What is in the grammar is read so, unless memory runs out or the depot fails.
    ensures only { FileOnly (IsSchedule cores) (λ items. items.items) (D.contents depot.old name.now) result }
    // Which fault it is.
    ensures exact { FileExact (schedule_of cores) (λ items. items.items) (D.contents depot.old name.now) result }
    ensures read { (failed : Failed) → result ≡ Err (errors.Read failed) → Rose (D.faults depot.old name.now) (D.faults depot.new name.now) }
    ensures contents { D.contents depot.new ≡ D.contents depot.old }
    ensures later { (other : List ℕ) → D.faults depot.old other ≤ D.faults depot.new other }
{
    read(alloc, depot, name, cores)
}

fn read<D: Depot>(
    alloc: Global,
    depot: &mut D,
    name: &str,
    cores: u8,
) -> Result<Vec<StepItem>, ScheduleError>
    ensures exact { FileExact (schedule_of cores) (λ items. items.items) (D.contents depot.old name.now) result }
    ensures read { (failed : Failed) → result ≡ Err (errors.Read failed) → Rose (D.faults depot.old name.now) (D.faults depot.new name.now) }
    ensures contents { D.contents depot.new ≡ D.contents depot.old }
    ensures later { (other : List ℕ) → D.faults depot.old other ≤ D.faults depot.new other }
{
    match read_file(alloc, depot, name, SCHEDULE_LIMIT + 1) {
        Ok(bytes) => widen(parse(alloc, &bytes, cores)),
        Err(ReadError::Failed) => Err(ScheduleError::Read(Failed)),
        Err(ReadError::Memory) => Err(ScheduleError::Memory),
    }
}

#[tactic(auto, unfolding(crate::specs::Schedule::schedule_of))]
fn parse(alloc: Global, bytes: &[u8], cores: u8) -> Result<Vec<StepItem>, ParseError<ScheduleFault>>
    ensures { Gives (λ items. items.items) result (schedule_of cores bytes.now) }
{
    if bytes.len() > SCHEDULE_LIMIT {
        return Err(ParseError::Fault(ScheduleFault {
            at: SCHEDULE_LIMIT as u32,
        }));
    }
    let items = read_items(alloc, bytes, cores)?;
    Ok(items.into_vec())
}

fn read_items(
    alloc: Global,
    bytes: &[u8],
    cores: u8,
) -> Result<Items<StepItem>, ParseError<ScheduleFault>>
    requires { length bytes.now ≤ schedule_limit }
    ensures { Gives (λ items. items) result (items_of cores 0 bytes.now) }
{
    let mut items = Items::new(alloc);
    let mut rest = Class::NoGap.from(bytes);
    while !rest.is_empty() {
        let at = (bytes.len() - rest.len()) as u32;
        let (word, behind) = Class::Gap.split(rest);
        let item = read_item(cores, word).ok_or(ScheduleFault { at })?;
        items.push(item)?;
        rest = Class::NoGap.from(behind);
    }
    Ok(items)
}

/// The item that the word is, where cores are below `cores`.
#[tactic(auto, unfolding(crate::specs::Schedule::item_of))]
fn read_item(cores: u8, word: &[u8]) -> Option<StepItem>
    ensures { result ≡ item_of cores word.now }
{
    let (digits, behind) = Class::Star.split(word);
    let core = read_core(cores, digits)?;
    let count = read_steps(behind)?;
    Some(StepItem { core, count })
}

/// The core of these digits, where it is below `cores`.
fn read_core(cores: u8, digits: &[u8]) -> Option<u8>
    ensures { result ≡ core_of cores digits.now }
{
    match decimal_number(digits, 255) {
        Some(core) if core < u64::from(cores) => Some(core as u8),
        _ => None,
    }
}

/// How many steps the bytes behind a core's digits ask for: one where there are none, and else the number
/// behind the star.
fn read_steps(behind: &[u8]) -> Option<u32>
    ensures { result ≡ steps_of behind.now }
{
    match behind {
        [] => Some(1),
        [_, digits @ ..] => match decimal_number(digits, u64::from(u32::MAX)) {
            Some(steps) => Some(steps as u32),
            None => None,
        },
    }
}
