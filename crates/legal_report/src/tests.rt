//! The form of reports, and the first line that fails it.

ghost use Rattle.std.specs.Prelude.{◌≤◌, length};
ghost use Rattle.legal_report.specs.Laid.{limit};

use crate::{
    Calls, CheckError, LIMIT, ReportFault, check_calls, find_periods, first_difference, read_form,
    wrong_table,
};
use hist::Period;
use mon_types::Owner;
use std::alloc::{AllocError, Global};
use std::process::Abort;
use std::test::Fail;

/// The first line that fails its form; None where none does.
fn faulty_line(alloc: Global, report: &[u8]) -> Result<Option<u32>, AllocError> {
    if report.len() > LIMIT {
        return Ok(Some(0));
    }
    match read_form(alloc, report) {
        Ok(_) => Ok(None),
        Err(CheckError::Fault(ReportFault::TooLong)) => Ok(Some(0)),
        Err(CheckError::Fault(ReportFault::Illegal { line })) => Ok(Some(line)),
        Err(CheckError::Memory) => Err(AllocError),
    }
}

/// How many calls, logs and bytes behind the logs a report has; None where a line fails its form.
fn parts(alloc: Global, report: &[u8]) -> Result<Option<(usize, usize, usize)>, AllocError> {
    if report.len() > LIMIT {
        return Ok(None);
    }
    match read_form(alloc, report) {
        Ok(form) => Ok(Some((form.calls.len(), form.logs.len(), form.rest.len()))),
        Err(CheckError::Fault(_)) => Ok(None),
        Err(CheckError::Memory) => Err(AllocError),
    }
}

#[test]
fn the_parts_of_a_report_are_found(rt: HostRuntime) -> Result<(), Fail> {
    let report =
        b"sanctum report 1\nmachine cores 2 regions 8 pages 1 shift 0\ncall 1 core 1 serial 0 block 3 = concurrent r3 0 0 tried r3\ncall 2 core 0 serial 0 block 3 = ok tried r3\nlog 0\nentry 2\nlog 1\ntouch 3 0\nentry 1\ntrap 2 13 4096\nend\n";
    assert_eq!(rt; parts(rt.alloc(), report)?, Some((2, 2, 4)));
    assert_eq!(rt; faulty_line(rt.alloc(), report)?, None);
    Ok(())
}

#[test]
fn the_first_line_out_of_form_is_named(rt: HostRuntime) -> Result<(), Fail> {
    for (report, line) in [
        (b"".as_slice(), 1),
        (b"sanctum report 2\n", 1),
        (b"sanctum report 1", 1),
        (b"sanctum report 1\n", 2),
        (
            b"sanctum report 1\nmachine cores 0 regions 8 pages 1 shift 0\n",
            2,
        ),
        (
            b"sanctum report 1\nmachine cores 1 regions 8 pages 1 shift 0\n",
            3,
        ),
        (
            b"sanctum report 1\nmachine cores 1 regions 8 pages 1 shift 0\nlog 1\n",
            3,
        ),
        (
            b"sanctum report 1\nmachine cores 1 regions 8 pages 1 shift 0\nlog 0",
            3,
        ),
        (
            b"sanctum report 1\nmachine cores 2 regions 8 pages 1 shift 0\nlog 0\nentry 1\n",
            5,
        ),
        (
            b"sanctum report 1\nmachine cores 2 regions 8 pages 1 shift 0\nlog 0\nentry 01\nlog 1\n",
            4,
        ),
        (
            b"sanctum report 1\nmachine cores 2 regions 8 pages 1 shift 0\nlog 0\nlog 0\nlog 1\n",
            4,
        ),
        (
            b"sanctum report 1\nmachine cores 1 regions 8 pages 1 shift 0\ncall 1 core 0 serial 00 flush = ok tried c0\nlog 0\n",
            3,
        ),
        (
            b"sanctum report 1\nmachine cores 1 regions 8 pages 1 shift 0\ncall 1 core 0 serial 0 flush = ok tried c0\nentry 1\nlog 0\n",
            4,
        ),
    ] {
        assert_eq!(rt; faulty_line(rt.alloc(), report)?, Some(line));
    }
    Ok(())
}

#[test]
fn behind_the_last_log_no_line_has_a_form(rt: HostRuntime) -> Result<(), Fail> {
    let report =
        b"sanctum report 1\nmachine cores 1 regions 8 pages 1 shift 0\nlog 0\nentry 01\nlog 1\nnothing";
    assert_eq!(rt; parts(rt.alloc(), report)?, Some((0, 1, 22)));
    Ok(())
}

#[test]
fn the_first_other_line_is_named(rt: HostRuntime) -> Result<(), Fail> {
    let wanted = b"region 0 free\nend\n".as_slice();
    for (there, line) in [
        (b"region 0 free\nend\n".as_slice(), None),
        (b"region 1 free\nend\n", Some(7)),
        (b"region 0 free\nend", Some(8)),
        (b"region 0 free\n", Some(8)),
        (b"region 0 free\nend\nend\n", Some(9)),
        (b"", Some(7)),
    ] {
        assert_eq!(rt; first_difference(wanted, there, 7), line);
    }
    Ok(())
}

/// The first line of the form or of a call that fails; None where none does.
fn wrong_line(alloc: Global, report: &[u8]) -> Result<Option<u32>, AllocError> {
    if report.len() > LIMIT {
        return Ok(Some(0));
    }
    match first_calls(alloc, report) {
        Ok(()) => Ok(None),
        Err(CheckError::Fault(ReportFault::TooLong)) => Ok(Some(0)),
        Err(CheckError::Fault(ReportFault::Illegal { line })) => Ok(Some(line)),
        Err(CheckError::Memory) => Err(AllocError),
    }
}

fn first_calls(alloc: Global, report: &[u8]) -> Result<(), CheckError>
    requires { length report.now ≤ limit }
{
    let form = read_form(alloc, report)?;
    let calls = Calls {
        config: &form.config,
        bytes: report,
        places: form.calls.as_slice(),
    };
    let _ = check_calls(alloc, &calls)?;
    Ok(())
}

/// Two cores: core 1 blocks region 3 while core 0 holds it, and later tries again.
const TWO_CORES: &str =
    "sanctum report 1\nmachine cores 2 regions 8 pages 1 shift 0\ncall 1 core 1 serial 0 block 3 = concurrent r3 0 0 tried r3\ncall 2 core 0 serial 0 block 3 = ok tried r3\ncall 3 core 1 serial 1 block 3 = invalid_state tried r3\ncall 4 core 0 serial 1 flush = ok tried c0\ncall 5 core 0 serial 2 free 3 = not_flushed tried r3 c0 c1\ncall 6 core 1 serial 2 flush = ok tried c1\ncall 7 core 0 serial 3 free 3 = ok tried r3 c0 c1\nlog 0\nlog 1\n";

#[test]
fn the_calls_of_two_cores_are_right(rt: HostRuntime) -> Result<(), Fail> {
    assert_eq!(rt; wrong_line(rt.alloc(), TWO_CORES.as_bytes())?, None);
    Ok(())
}

/// The report with this text in place of that.
fn spoiled(alloc: Global, old: &str, new: &str) -> Result<Vec<u8>, AllocError> {
    let mut report = Vec::new(alloc);
    if let Some((front, back)) = TWO_CORES.split_once(old) {
        report.extend_from_slice(front.as_bytes())?;
        report.extend_from_slice(new.as_bytes())?;
        report.extend_from_slice(back.as_bytes())?;
    }
    Ok(report)
}

#[test]
fn the_first_wrong_call_is_named(rt: HostRuntime) -> Result<(), Fail> {
    for (old, new, line) in [
        ("call 1 core", "call 2 core", Some(3)),
        ("call 7 core", "call 8 core", Some(9)),
        ("core 1 serial 1", "core 1 serial 0", Some(5)),
        ("core 1 serial 1", "core 1 serial 2", Some(5)),
        ("core 0 serial 3", "core 0 serial 4", Some(9)),
        ("= invalid_state", "= ok", Some(5)),
        ("= not_flushed", "= ok", Some(7)),
        ("free 3 = ok", "free 3 = not_flushed", Some(9)),
        ("ok tried c0", "ok tried", Some(6)),
        ("tried r3 c0 c1", "tried r3", Some(7)),
        ("concurrent r3 0 0", "concurrent r3 1 0", Some(3)),
        ("concurrent r3 0 0", "concurrent r4 0 0", Some(3)),
        ("concurrent r3 0 0", "concurrent r3 0 1", Some(3)),
        ("concurrent r3 0 0", "concurrent r3 0 2", Some(3)),
        ("concurrent r3 0 0", "concurrent r3 0 4", Some(3)),
        ("r3 0 0 tried r3", "r3 0 0 tried", Some(3)),
        ("r3 0 0 tried r3", "r3 0 0 tried r3 c0", Some(3)),
        ("invalid_state tried r3", "concurrent r3 0 0 tried r3", None),
        (
            "core 1 serial 2 flush = ok",
            "core 1 serial 2 flush = concurrent c1 0 0",
            Some(8),
        ),
        (
            "flush = ok tried c1",
            "block 3 = concurrent r3 0 0 tried r3",
            Some(9),
        ),
    ] {
        let report = spoiled(rt.alloc(), old, new)?;
        assert_eq!(rt; wrong_line(rt.alloc(), &report)?, line, "{old}: {new}");
    }
    Ok(())
}

/// The period of region 3 that began at this ticket, in a report whose calls are right.
fn period_of_3(alloc: Global, report: &[u8], since: u32) -> Result<Option<Period>, CheckError>
    requires { length report.now ≤ limit }
{
    let form = read_form(alloc, report)?;
    let calls = Calls {
        config: &form.config,
        bytes: report,
        places: form.calls.as_slice(),
    };
    let _ = check_calls(alloc, &calls)?;
    let marks = find_periods(alloc, &calls)?;
    if form.config.regions() > 3 {
        Ok(marks[3].period(3, since))
    } else {
        Ok(None)
    }
}

#[test]
fn a_period_is_found_by_its_ticket(rt: HostRuntime) -> Result<(), Fail> {
    let first = period_of_3(rt.alloc(), TWO_CORES.as_bytes(), 0)
        .ok()
        .expect(&rt, "a report");
    let period = Period {
        region: 3,
        owner: Owner::Os,
        since: 0,
        blocked: Some(2),
        freed: Some(7),
    };
    assert_eq!(rt; first, Some(period));
    let none = period_of_3(rt.alloc(), TWO_CORES.as_bytes(), 2)
        .ok()
        .expect(&rt, "a report");
    assert_eq!(rt; none, None);
    Ok(())
}

/// A core alone takes region 3 back from the OS and gives it again.
const ALONE: &str =
    "sanctum report 1\nmachine cores 1 regions 8 pages 1 shift 0\ncall 1 core 0 serial 0 block 3 = ok tried r3\ncall 2 core 0 serial 1 free 3 = not_flushed tried r3 c0\ncall 3 core 0 serial 2 flush = ok tried c0\ncall 4 core 0 serial 3 free 3 = ok tried r3 c0\ncall 5 core 0 serial 4 assign 3 18446744073709551615 = ok tried r3\nlog 0\nentry 1\nentry 2\nentry 3\nentry 4\nentry 5\nregion 0 owned os since 0\nregion 1 owned os since 0\nregion 2 owned os since 0\nregion 3 owned os since 5\nregion 4 owned os since 0\nregion 5 owned os since 0\nregion 6 owned os since 0\nregion 7 owned os since 0\ncore 0 os flushed 3\nend\n";

/// The first line behind the logs that is not the wanted one, in a report whose first such line has this number.
fn wrong_end(alloc: Global, report: &[u8], first: u32) -> Result<Option<u32>, CheckError>
    requires size { length report.now ≤ limit }
    requires first { first ≤ 100 }
{
    let form = read_form(alloc, report)?;
    let calls = Calls {
        config: &form.config,
        bytes: report,
        places: form.calls.as_slice(),
    };
    let called = check_calls(alloc, &calls)?;
    Ok(wrong_table(alloc, &called.monitor, form.rest, first)?)
}

/// Checks the first line behind the logs of that report, in which a text is replaced, that is not the wanted one.
fn check_wrong_end(
    rt: &impl Abort,
    alloc: Global,
    old: &str,
    new: &str,
    line: Option<u32>,
) -> Result<(), Fail> {
    let (front, back) = ALONE.split_once(old).ok_or("not there")?;
    let mut report = front.as_bytes().to_vec(alloc)?;
    report.extend_from_slice(new.as_bytes())?;
    report.extend_from_slice(back.as_bytes())?;
    assert!(rt; report.len() <= LIMIT);
    let wrong = wrong_end(alloc, &report, 14).ok().ok_or("no report")?;
    assert_eq!(rt; wrong, line);
    Ok(())
}

#[test]
fn the_tables_are_those_of_the_calls(rt: HostRuntime) -> Result<(), Fail> {
    let alloc = rt.alloc();
    check_wrong_end(&rt, alloc, "end\n", "end\n", None)?;
    check_wrong_end(&rt, alloc, "since 5", "since 0", Some(17))?;
    check_wrong_end(&rt, alloc, "flushed 3", "flushed 0", Some(22))?;
    check_wrong_end(&rt, alloc, "end\n", "", Some(23))?;
    check_wrong_end(&rt, alloc, "end\n", "end", Some(23))?;
    check_wrong_end(&rt, alloc, "end\n", "end\nend\n", Some(24))
}
