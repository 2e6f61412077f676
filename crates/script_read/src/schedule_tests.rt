//! Schedules that are read, and the fault of each that is not.

use crate::{ScheduleError, read_schedule};
use mon_types::StepItem;
use sm_ports::MapDepot;
use std::alloc::{AllocError, Global};
use std::process::Abort;
use std::test::Fail;

/// No call of a depot has this number.
const NO_CALL: u32 = u32::MAX;

/// A depot with a schedule, which fails the call of this number.
fn depot_with(alloc: Global, bytes: Vec<u8>, failing: u32) -> Result<MapDepot, AllocError> {
    let name = String::from_str(alloc, "q")?;
    let files = vec![in alloc; (name, bytes)]?;
    let fails = vec![in alloc; failing]?;
    Ok(MapDepot::new(files, fails))
}

/// What reading a schedule for so many cores gives.
fn read(alloc: Global, text: &[u8], cores: u8) -> Result<Vec<StepItem>, ScheduleError> {
    let bytes = text.to_vec(alloc)?;
    let mut depot = depot_with(alloc, bytes, NO_CALL)?;
    read_schedule(alloc, &mut depot, "q", cores)
}

/// The fault of a schedule; the empty text where it has none.
fn fault(alloc: Global, text: &[u8], cores: u8) -> Result<String, AllocError> {
    match read(alloc, text, cores) {
        Ok(_) => Ok(String::new(alloc)),
        Err(ScheduleError::Fault(fault)) => format!(in alloc; "{fault}"),
        Err(ScheduleError::Read(_)) => String::from_str(alloc, "read"),
        Err(ScheduleError::Memory) => String::from_str(alloc, "memory"),
    }
}

/// Checks the fault of a schedule for so many cores; the empty text where it has none.
fn check_fault(
    rt: &impl Abort,
    alloc: Global,
    text: &[u8],
    cores: u8,
    want: &str,
) -> Result<(), Fail> {
    assert_eq!(rt; fault(alloc, text, cores)?.as_str(), want);
    Ok(())
}

/// Checks that a schedule for one core has no items.
fn check_no_items(rt: &impl Abort, alloc: Global, text: &[u8]) {
    let items = read(alloc, text, 1).expect(rt, "a schedule");
    assert!(rt; items.is_empty());
}

/// Checks whether a read fault is told where the depot fails this call.
fn check_failing_call(
    rt: &impl Abort,
    alloc: Global,
    failing: u32,
    fails: bool,
) -> Result<(), Fail> {
    let bytes = b"0 0".to_vec(alloc)?;
    let mut depot = depot_with(alloc, bytes, failing)?;
    let answer = read_schedule(alloc, &mut depot, "q", 1);
    assert_eq!(rt; matches!(answer, Err(ScheduleError::Read(_))), fails);
    Ok(())
}

fn item(core: u8, count: u32) -> StepItem {
    StepItem { core, count }
}

#[test]
fn items_are_read(rt: HostRuntime) -> Result<(), Fail> {
    let alloc = rt.alloc();
    let text = b"\t0*14 1*2\r\n\n 0*2 1 15*4294967295\r2*0 \n007*0003 0";
    let items = read(alloc, text, 16).expect(&rt, "a schedule");
    assert_eq!(rt;
        items.as_slice(),
        [
            item(0, 14),
            item(1, 2),
            item(0, 2),
            item(1, 1),
            item(15, 4_294_967_295),
            item(2, 0),
            item(7, 3),
            item(0, 1),
        ]
        .as_slice()
    );
    Ok(())
}

#[test]
fn there_may_be_no_items(rt: HostRuntime) -> Result<(), Fail> {
    let alloc = rt.alloc();
    for text in [b"".as_slice(), b" ", b"\n", b"\r\n\t \r"] {
        check_no_items(&rt, alloc, text);
    }
    Ok(())
}

#[test]
fn the_first_fault_is_named(rt: HostRuntime) -> Result<(), Fail> {
    let alloc = rt.alloc();
    for (text, cores, want) in [
        (b"0*9 2".as_slice(), 2, "schedule at 4"),
        (b"2", 2, "schedule at 0"),
        (b"1", 2, ""),
        (b"16", 16, "schedule at 0"),
        (b"0", 0, "schedule at 0"),
        (b"256", 255, "schedule at 0"),
        (b"18446744073709551616", 16, "schedule at 0"),
        (b" \t\r\n0*4294967296 x", 1, "schedule at 4"),
        (b"0*", 1, "schedule at 0"),
        (b"*1", 1, "schedule at 0"),
        (b"*", 1, "schedule at 0"),
        (b"0**1", 1, "schedule at 0"),
        (b"0*1*1", 1, "schedule at 0"),
        (b"0 * 1", 1, "schedule at 2"),
        (b"0* 1", 1, "schedule at 0"),
        (b"0x0", 1, "schedule at 0"),
        (b"0*0x1", 1, "schedule at 0"),
        (b"0,1", 2, "schedule at 0"),
        (b"-0", 1, "schedule at 0"),
        (b"+0", 1, "schedule at 0"),
        (b"0\n# 0", 1, "schedule at 2"),
        (b"0 \x80", 1, "schedule at 2"),
        (b"0\x0b0", 1, "schedule at 0"),
        (b"0 1 2 3 4", 3, "schedule at 6"),
    ] {
        check_fault(&rt, alloc, text, cores, want)?;
    }
    Ok(())
}

#[test]
fn the_limit_comes_before_all_else(rt: HostRuntime) -> Result<(), Fail> {
    let alloc = rt.alloc();
    for (size, want) in [
        (1_048_576, "schedule at 0"),
        (1_048_577, "schedule at 1048576"),
    ] {
        let bytes = vec![in alloc; b'x'; size]?;
        check_fault(&rt, alloc, bytes.as_slice(), 1, want)?;
    }
    let spaces = vec![in alloc; b' '; 1_048_576]?;
    assert_eq!(rt; fault(alloc, spaces.as_slice(), 1)?.as_str(), "");
    Ok(())
}

#[test]
fn a_failing_depot_is_told(rt: HostRuntime) -> Result<(), Fail> {
    let alloc = rt.alloc();
    for (failing, fails) in [(0, true), (1, true), (2, false)] {
        check_failing_call(&rt, alloc, failing, fails)?;
    }
    let mut depot = depot_with(alloc, Vec::new(alloc), NO_CALL)?;
    let answer = read_schedule(alloc, &mut depot, "missing", 1);
    assert!(rt; matches!(answer, Err(ScheduleError::Read(_))));
    Ok(())
}
