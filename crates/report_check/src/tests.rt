//! Reports that are legal, and the first line that fails of each that is not.

use crate::{ReportError, check_report};
use legal_report::ReportFault;
use sm_ports::{DripDepot, Failed, MapDepot};
use std::alloc::{AllocError, Global};
use std::process::Abort;
use std::test::Fail;

/// The one file `r` with this text.
fn one_file(alloc: Global, text: &[u8]) -> Result<Vec<(String, Vec<u8>)>, AllocError> {
    let mut files = Vec::new(alloc);
    files.push((String::from_str(alloc, "r")?, text.to_vec(alloc)?))?;
    Ok(files)
}

/// The number of calls of a report that is legal, or the first line that fails.
fn verdict(alloc: Global, report: &[u8]) -> Result<Result<u32, u32>, Fail> {
    let mut depot = MapDepot::new(one_file(alloc, report)?, Vec::new(alloc));
    match check_report(alloc, &mut depot, "r") {
        Ok(count) => Ok(Ok(count)),
        Err(ReportError::Fault(ReportFault::Illegal { line })) => Ok(Err(line)),
        Err(_) => Err(Fail::from("not read")),
    }
}

/// A report in which the first text that is this one is replaced.
fn spoiled(alloc: Global, report: &str, old: &str, new: &str) -> Result<Vec<u8>, Fail> {
    let (front, back) = report.split_once(old).ok_or("not there")?;
    let mut text = front.as_bytes().to_vec(alloc)?;
    text.extend_from_slice(new.as_bytes())?;
    text.extend_from_slice(back.as_bytes())?;
    Ok(text)
}

/// Checks the first line that fails of a report in which a text is replaced.
fn check_fails(
    rt: &impl Abort,
    alloc: Global,
    report: &str,
    old: &str,
    new: &str,
    line: u32,
) -> Result<(), Fail> {
    let text = spoiled(alloc, report, old, new)?;
    assert_eq!(rt; verdict(alloc, &text)?, Err(line));
    Ok(())
}

/// Checks that a report in which a text is replaced is legal, with so many calls.
fn check_legal(
    rt: &impl Abort,
    alloc: Global,
    report: &str,
    old: &str,
    new: &str,
    calls: u32,
) -> Result<(), Fail> {
    let text = spoiled(alloc, report, old, new)?;
    assert_eq!(rt; verdict(alloc, &text)?, Ok(calls));
    Ok(())
}

/// A core alone takes region 3 back from the OS and gives it again.
const FIRST: &str =
    "sanctum report 1\nmachine cores 1 regions 8 pages 1 shift 0\ncall 1 core 0 serial 0 block 3 = ok tried r3\ncall 2 core 0 serial 1 free 3 = not_flushed tried r3 c0\ncall 3 core 0 serial 2 flush = ok tried c0\ncall 4 core 0 serial 3 free 3 = ok tried r3 c0\ncall 5 core 0 serial 4 assign 3 18446744073709551615 = ok tried r3\nlog 0\nentry 1\nentry 2\nentry 3\nentry 4\nentry 5\nregion 0 owned os since 0\nregion 1 owned os since 0\nregion 2 owned os since 0\nregion 3 owned os since 5\nregion 4 owned os since 0\nregion 5 owned os since 0\nregion 6 owned os since 0\nregion 7 owned os since 0\ncore 0 os flushed 3\nend\n";

/// Core 1 touches region 3 before core 0 blocks it, and flushes between that and the free.
const STALE: &str =
    "sanctum report 1\nmachine cores 2 regions 8 pages 1 shift 0\ncall 1 core 0 serial 0 block 3 = ok tried r3\ncall 2 core 0 serial 1 flush = ok tried c0\ncall 3 core 0 serial 2 free 3 = not_flushed tried r3 c0 c1\ncall 4 core 1 serial 0 flush = ok tried c1\ncall 5 core 0 serial 3 free 3 = ok tried r3 c0 c1\nlog 0\nentry 1\nentry 2\nentry 3\nentry 5\nlog 1\ntouch 3 0\nentry 4\ntrap 4 5 2147495936\nregion 0 owned os since 0\nregion 1 owned os since 0\nregion 2 owned os since 0\nregion 3 free\nregion 4 owned os since 0\nregion 5 owned os since 0\nregion 6 owned os since 0\nregion 7 owned os since 0\ncore 0 os flushed 2\ncore 1 os flushed 4\nend\n";

#[test]
fn check_first_path(rt: HostRuntime) -> Result<(), Fail> {
    assert_eq!(rt; verdict(rt.alloc(), FIRST.as_bytes())?, Ok(5));
    assert_eq!(rt; verdict(rt.alloc(), STALE.as_bytes())?, Ok(5));
    Ok(())
}

#[test]
fn check_forged_reply(rt: HostRuntime) -> Result<(), Fail> {
    check_fails(&rt, rt.alloc(), FIRST, "not_flushed", "ok", 4)
}

#[test]
fn check_missing_end(rt: HostRuntime) -> Result<(), Fail> {
    check_fails(&rt, rt.alloc(), FIRST, "end\n", "", 23)
}

#[test]
fn check_moved_touch(rt: HostRuntime) -> Result<(), Fail> {
    let (old, new) = ("touch 3 0\nentry 4\n", "entry 4\ntouch 3 0\n");
    check_fails(&rt, rt.alloc(), STALE, old, new, 15)
}

#[test]
fn the_form_comes_first(rt: HostRuntime) -> Result<(), Fail> {
    let alloc = rt.alloc();
    check_fails(&rt, alloc, FIRST, "report 1", "report 2", 1)?;
    check_fails(&rt, alloc, FIRST, "cores 1", "cores 01", 2)?;
    check_fails(&rt, alloc, FIRST, "block 3 =", "block 3 3 =", 3)?;
    check_fails(&rt, alloc, FIRST, "serial 4 assign", "serial 04 assign", 7)?;
    check_fails(&rt, alloc, FIRST, "log 0", "log 1", 8)?;
    check_fails(&rt, alloc, FIRST, "log 0\n", "", 8)?;
    check_fails(&rt, alloc, STALE, "log 1\n", "", 16)
}

#[test]
fn calls_are_made_again(rt: HostRuntime) -> Result<(), Fail> {
    let alloc = rt.alloc();
    check_fails(&rt, alloc, FIRST, "call 2 core", "call 3 core", 4)?;
    check_fails(&rt, alloc, FIRST, "serial 0 block", "serial 1 block", 3)?;
    check_fails(&rt, alloc, FIRST, "r3 c0\ncall 3", "r3\ncall 3", 4)?;
    let flush = "call 3 core 0 serial 2 flush = ok tried c0\n";
    check_fails(&rt, alloc, FIRST, flush, "", 5)?;
    let met = "call 4 core 1 serial 0 flush = concurrent c1 0 3 tried c1";
    check_fails(
        &rt,
        alloc,
        STALE,
        "call 4 core 1 serial 0 flush = ok tried c1",
        met,
        7,
    )
}

#[test]
fn entries_are_the_cores_tickets_in_order(rt: HostRuntime) -> Result<(), Fail> {
    let alloc = rt.alloc();
    check_fails(&rt, alloc, FIRST, "entry 2\n", "entry 2\nentry 2\n", 11)?;
    check_fails(
        &rt,
        alloc,
        FIRST,
        "entry 1\nentry 2\n",
        "entry 2\nentry 1\n",
        9,
    )?;
    check_fails(&rt, alloc, FIRST, "entry 5\n", "", 13)?;
    check_fails(&rt, alloc, FIRST, "entry 5\n", "entry 6\n", 13)?;
    check_fails(&rt, alloc, FIRST, "entry 3\n", "entry 3 \n", 11)?;
    check_fails(&rt, alloc, STALE, "entry 5\n", "", 12)?;
    check_fails(&rt, alloc, STALE, "entry 3\n", "entry 4\n", 11)
}

#[test]
fn touches_are_safe(rt: HostRuntime) -> Result<(), Fail> {
    let alloc = rt.alloc();
    check_fails(&rt, alloc, STALE, "touch 3 0\n", "touch 3 1\n", 14)?;
    check_fails(
        &rt,
        alloc,
        STALE,
        "touch 3 0\n",
        "touch 3 0\ntouch 3 0\n",
        15,
    )?;
    check_fails(&rt, alloc, STALE, "touch 3 0\n", "touch 8 0\n", 14)?;
    // behind the last entry of core 0 the region is free
    check_fails(&rt, alloc, STALE, "entry 5\n", "entry 5\ntouch 3 0\n", 13)?;
    check_legal(
        &rt,
        alloc,
        STALE,
        "entry 4\n",
        "touch 2 0\nentry 4\ntouch 2 0\n",
        5,
    )?;
    check_fails(
        &rt,
        alloc,
        STALE,
        "entry 4\n",
        "touch 2 0\ntouch 2 0\nentry 4\n",
        16,
    )?;
    // the period since ticket 5 begins there
    check_fails(&rt, alloc, FIRST, "entry 4\n", "entry 4\ntouch 3 5\n", 13)?;
    check_legal(&rt, alloc, FIRST, "entry 5\n", "entry 5\ntouch 3 5\n", 5)
}

#[test]
fn stops_stand_in_order(rt: HostRuntime) -> Result<(), Fail> {
    let alloc = rt.alloc();
    check_fails(&rt, alloc, FIRST, "entry 5\n", "entry 5\nlimit 0\n", 14)?;
    check_legal(&rt, alloc, FIRST, "entry 5\n", "entry 5\nlimit 2\n", 5)?;
    check_fails(&rt, alloc, FIRST, "entry 5\n", "limit 2\nentry 5\n", 13)?;
    check_legal(
        &rt,
        alloc,
        FIRST,
        "entry 5\n",
        "trap 3 5 0\nentry 5\ntrap 3 2 0\n",
        5,
    )?;
    check_fails(
        &rt,
        alloc,
        FIRST,
        "entry 5\n",
        "trap 3 5 0\nentry 5\ntrap 2 2 0\n",
        15,
    )
}

#[test]
fn tables_are_those_of_the_calls(rt: HostRuntime) -> Result<(), Fail> {
    let alloc = rt.alloc();
    check_fails(
        &rt,
        alloc,
        FIRST,
        "owned os since 5",
        "owned os since 0",
        17,
    )?;
    check_fails(&rt, alloc, FIRST, "flushed 3", "flushed 4", 22)?;
    check_fails(&rt, alloc, FIRST, "end\n", "end", 23)?;
    check_fails(&rt, alloc, FIRST, "end\n", "end\nend\n", 24)?;
    check_fails(&rt, alloc, STALE, "region 3 free\n", "", 20)
}

#[test]
fn a_file_comes_in_pieces_and_may_fail(rt: HostRuntime) -> Result<(), Fail> {
    let alloc = rt.alloc();
    let mut depot = DripDepot::new(one_file(alloc, FIRST.as_bytes())?, Vec::new(alloc), 7);
    assert!(rt; matches!(check_report(alloc, &mut depot, "r"), Ok(5)));
    // the third call fails, behind two pieces of seven bytes
    let fails = [2].to_vec(alloc)?;
    let mut failing = DripDepot::new(one_file(alloc, FIRST.as_bytes())?, fails, 7);
    assert!(rt;
        matches!(
            check_report(alloc, &mut failing, "r"),
            Err(ReportError::Read(Failed))
        )
    );
    Ok(())
}
