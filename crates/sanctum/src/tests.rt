//! The worked rows that exist by now, each by its name, over files and output in memory.

use crate::status::Status;
use crate::top::sanctum;
use sm_ports::{
    Depot, DripDepot, DripSink, MapDepot, OpenGate, Sink, StillDepot, StillSink, VecSink,
};
use std::alloc::{AllocError, Global};
use std::process::Abort;
use std::test::Fail;
use std::thread::Threads;

/// Room for every report of this file.
const ROOM: usize = 1 << 21;

const FIRST: &str = "block 3\nfree 3\nflush\nfree 3\nassign 3 os\n";

const FIRST_REPORT: &str = "sanctum report 1
machine cores 1 regions 8 pages 1 shift 0
call 1 core 0 serial 0 block 3 = ok tried r3
call 2 core 0 serial 1 free 3 = not_flushed tried r3 c0
call 3 core 0 serial 2 flush = ok tried c0
call 4 core 0 serial 3 free 3 = ok tried r3 c0
call 5 core 0 serial 4 assign 3 18446744073709551615 = ok tried r3
log 0
entry 1
entry 2
entry 3
entry 4
entry 5
region 0 owned os since 0
region 1 owned os since 0
region 2 owned os since 0
region 3 owned os since 5
region 4 owned os since 0
region 5 owned os since 0
region 6 owned os since 0
region 7 owned os since 0
core 0 os flushed 3
end
";

pub const HEAD: &str = "sanctum report 1\nmachine cores 1 regions 8 pages 1 shift 0\n";

const TABLES: &str = "region 0 owned os since 0
region 1 owned os since 0
region 2 owned os since 0
region 3 owned os since 0
region 4 owned os since 0
region 5 owned os since 0
region 6 owned os since 0
region 7 owned os since 0
core 0 os flushed 0
end
";

/// The words of a command line.
pub fn words_of(alloc: Global, words: &[&str]) -> Result<Vec<String>, AllocError> {
    let mut list = Vec::new(alloc);
    for word in words {
        list.push(String::from_str(alloc, word)?)?;
    }
    Ok(list)
}

/// Files in memory for one run, and which calls of the depot and of the sink fail.
#[derive(Clone, Copy)]
pub struct Files<'a> {
    /// The file "S".
    pub script: &'a [u8],
    /// The file "I".
    pub image: &'a [u8],
    pub failing_reads: &'a [u32],
    pub failing_puts: &'a [u32],
}

impl<'a> Files<'a> {
    /// Files of which nothing fails.
    pub fn of_script(script: &'a [u8], image: &'a [u8]) -> Files<'a> {
        Files {
            script,
            image,
            failing_reads: &[],
            failing_puts: &[],
        }
    }

    /// The files by their names.
    fn named(&self, alloc: Global) -> Result<Vec<(String, Vec<u8>)>, AllocError> {
        let mut files = Vec::new(alloc);
        for (name, bytes) in [("S", self.script), ("I", self.image)] {
            files.push((
                String::from_str(alloc, name)?,
                Vec::from_slice(alloc, bytes)?,
            ))?;
        }
        Ok(files)
    }
}

/// A text over and over.
pub fn repeated(alloc: Global, text: &str, times: u32) -> Result<Vec<u8>, AllocError> {
    let mut bytes = Vec::new(alloc);
    for _ in 0..times {
        bytes.extend_from_slice(text.as_bytes())?;
    }
    Ok(bytes)
}

/// Runs the words over files.
pub fn run_files<R: Threads + Sync>(
    rt: &R,
    alloc: Global,
    words: &[&str],
    files: &Files<'_>,
) -> Result<(Status, VecSink), AllocError> {
    let reads = Vec::from_slice(alloc, files.failing_reads)?;
    let mut depot = MapDepot::new(files.named(alloc)?, reads);
    let mut out = VecSink::new(alloc, ROOM, Vec::from_slice(alloc, files.failing_puts)?)?;
    let words = words_of(alloc, words)?;
    let status = sanctum(rt, alloc, &words, &mut depot, &mut out, &OpenGate);
    Ok((status, out))
}

/// Runs the words over one file, of the name "S", and a sink that fails the listed calls.
pub fn run<R: Threads + Sync>(
    rt: &R,
    alloc: Global,
    words: &[&str],
    file: &[u8],
    fails: &[u32],
) -> Result<(Status, VecSink), AllocError> {
    let files = Files {
        script: file,
        image: &[],
        failing_reads: &[],
        failing_puts: fails,
    };
    run_files(rt, alloc, words, &files)
}

/// Runs the words over files, and checks the exit status and what is printed. Rows call this, since a proof of
/// assertions in a loop over a table takes several times as long as of a call.
pub fn check_files<R: Threads + Sync + Abort>(
    rt: &R,
    alloc: Global,
    name: &str,
    words: &[&str],
    files: &Files<'_>,
    code: u8,
    want: &str,
) -> Result<(), Fail> {
    let (status, out) = run_files(rt, alloc, words, files)?;
    assert_eq!(rt; status.code(), code, "{name}");
    assert_eq!(rt; out.as_slice(), want.as_bytes(), "{name}");
    Ok(())
}

/// The same over one file, of the name "S".
pub fn check_answer<R: Threads + Sync + Abort>(
    rt: &R,
    alloc: Global,
    name: &str,
    words: &[&str],
    file: &[u8],
    code: u8,
    want: &str,
) -> Result<(), Fail> {
    let files = Files::of_script(file, b"");
    check_files(rt, alloc, name, words, &files, code, want)
}

/// Runs the words over files, and checks that they end well and print the bytes of these hexadecimal digits.
pub fn check_bytes<R: Threads + Sync + Abort>(
    rt: &R,
    alloc: Global,
    name: &str,
    words: &[&str],
    files: &Files<'_>,
    want: &str,
) -> Result<(), Fail> {
    let (status, out) = run_files(rt, alloc, words, files)?;
    assert_eq!(rt; status.code(), 0, "{name}");
    assert_eq!(rt;
        hex::encode(alloc, out.as_slice())?.as_str(),
        want,
        "{name}"
    );
    Ok(())
}

#[test]
fn rows_with_a_report(rt: HostRuntime) -> Result<(), Fail> {
    let alloc = rt.alloc();
    for (name, script, calls, entries) in [
        ("empty-script", "", "", ""),
        (
            "bad-region",
            "block 0\nblock 64\n",
            "call 1 core 0 serial 0 block 0 = invalid_value tried\ncall 2 core 0 serial 1 block 64 = invalid_value tried\n",
            "entry 1\nentry 2\n",
        ),
        (
            "free-unblocked",
            "free 3\n",
            "call 1 core 0 serial 0 free 3 = invalid_state tried r3\n",
            "entry 1\n",
        ),
        (
            "assign to an empty slot, and what a region is",
            "assign 0x3 2\t# empty\r\n\n  region_info 03",
            "call 1 core 0 serial 0 assign 3 2 = invalid_state tried e2 r3\ncall 2 core 0 serial 1 region_info 3 = ok 1 18446744073709551615 0 0 tried r3\n",
            "entry 1\nentry 2\n",
        ),
    ] {
        let want = format!(in alloc; "{HEAD}{calls}log 0\n{entries}{TABLES}")?;
        check_answer(
            &rt,
            alloc,
            name,
            &["script", "S"],
            script.as_bytes(),
            0,
            &want,
        )?;
    }
    let first = FIRST.as_bytes();
    check_answer(
        &rt,
        alloc,
        "first-path",
        &["script", "S"],
        first,
        0,
        FIRST_REPORT,
    )
}

#[test]
fn rows_with_a_refusal(rt: HostRuntime) -> Result<(), Fail> {
    let alloc = rt.alloc();
    let too_long = repeated(alloc, "#", 1_048_577)?;
    for (name, words, file, code, want) in [
        (
            "usage",
            [].as_slice(),
            b"".as_slice(),
            2,
            "refused: usage\n",
        ),
        ("usage", &["run", "a"], b"", 2, "refused: usage\n"),
        ("usage", &["--help"], b"", 2, "refused: usage\n"),
        (
            "script-faults",
            &["script", "S"],
            b"block",
            4,
            "refused: script line 1 missing word\n",
        ),
        (
            "script-faults",
            &["script", "S"],
            b"run 1000000\nrun 1",
            4,
            "refused: script line 2 turns over\n",
        ),
        (
            "pack-three",
            &["pack", "S", "1", "8", "1", "0"],
            b"addi x17, x0, 4\necal\nebreak",
            9,
            "refused: asm line 2 unknown word\n",
        ),
        (
            "double-label",
            &["pack", "S", "1", "8", "1", "0"],
            b"a: beq x0, x0, a\na: ecall",
            9,
            "refused: asm line 2 double label\n",
        ),
        (
            "an assembler text over its limit",
            &["pack", "S", "1", "8", "1", "0"],
            &too_long,
            9,
            "refused: asm line 0 too long\n",
        ),
        (
            "more words than two pages hold",
            &["pack", "S", "1", "2", "1", "0"],
            b".at 8192\necall",
            9,
            "refused: asm line 2 too long\n",
        ),
        (
            "17 cores",
            &["pack", "S", "17", "8", "1", "0"],
            b"",
            2,
            "refused: usage\n",
        ),
        (
            "a leading zero",
            &["pack", "S", "01", "8", "1", "0"],
            b"",
            2,
            "refused: usage\n",
        ),
        (
            "no shift",
            &["pack", "S", "1", "8", "1"],
            b"",
            2,
            "refused: usage\n",
        ),
        (
            "missing-file",
            &["pack", "X", "1", "8", "1", "0"],
            b"",
            5,
            "refused: read fault\n",
        ),
        (
            "missing-file",
            &["script", "X"],
            b"",
            5,
            "refused: read fault\n",
        ),
        (
            "script-too-long",
            &["script", "S"],
            &too_long,
            4,
            "refused: script too long\n",
        ),
    ] {
        check_answer(&rt, alloc, name, words, file, code, want)?;
    }
    Ok(())
}

/// Row `pack-three`, nine cores in version 2, and a text without words. The expected bytes are put
/// together by hand; the digest is that of another program.
#[test]
fn rows_with_an_image(rt: HostRuntime) -> Result<(), Fail> {
    let alloc = rt.alloc();
    for (name, words, file, want) in [
        (
            "pack-three",
            ["pack", "S", "1", "8", "1", "0"],
            "addi x17, x0, 4\necall\nebreak",
            "53414e4354554d010103000001000000000000800000000000000000000000000000008000000000100000000000000093084000730000007300100000000000",
        ),
        (
            "nine cores",
            ["pack", "S", "9", "2", "2", "1"],
            "ecall # one\nebreak\n",
            "53414e4354554d020901010101000000000000800000000000000000000000000000008000000000000000000000000000000080000000000000000000000000000000800000000000000000000000000000008000000000000000000000000000000080000000000000000000000000000000800000000000000000000000000000008000000000000000000000000000000080000000000000000000000000000000800000000008000000000000007300000073001000fd2e11867cd73c29d2fce60e8331e33a244cf1ca03d3c4d92fdd563dcb345f73",
        ),
        (
            "no words",
            ["pack", "S", "8", "64", "16", "4"],
            "# nothing",
            "53414e4354554d0108060404000000000000008000000000000000000000000000000080000000000000000000000000000000800000000000000000000000000000008000000000000000000000000000000080000000000000000000000000000000800000000000000000000000000000008000000000000000000000000000000080000000000000000000000000",
        ),
    ] {
        let files = Files::of_script(file.as_bytes(), b"");
        check_bytes(&rt, alloc, name, &words, &files, want)?;
    }
    Ok(())
}

/// `events-run-out`: before line 16,306 fewer than 80 of 16,384 events are left.
#[test]
fn events_run_out(rt: HostRuntime) -> Result<(), Fail> {
    let alloc = rt.alloc();
    let script = repeated(alloc, "flush\n", 16_306)?;
    let (status, out) = run(&rt, alloc, &["script", "S"], &script, &[])?;
    assert_eq!(rt; status.code(), 0);
    let text = str::from_utf8(out.as_slice())?;
    assert_eq!(rt;
        text.lines()
            .filter(|line| line.starts_with("call "))
            .count(),
        16_305
    );
    assert!(rt; text.contains("\nentry 16305\nlimit 16306\nregion 0 "));
    Ok(())
}

/// Checks that a sink that fails call k has the first k lines of the report.
fn check_first_lines<R: Threads + Sync + Abort>(rt: &R, alloc: Global, k: u32) -> Result<(), Fail> {
    let (status, out) = run(rt, alloc, &["script", "S"], FIRST.as_bytes(), &[k])?;
    assert_eq!(rt; status.code(), 6, "call {k}");
    assert!(rt;
        FIRST_REPORT.as_bytes().starts_with(out.as_slice()),
        "call {k}"
    );
    let lines = out.as_slice().iter().filter(|byte| **byte == b'\n').count();
    assert_eq!(rt; lines, k as usize, "call {k}");
    Ok(())
}

/// Rows `sink-fails-at-k`, `sink-fails-late`, `usage-sink-fails`, and a sink that fails its call 1.
#[test]
fn rows_with_a_failing_sink(rt: HostRuntime) -> Result<(), Fail> {
    let alloc = rt.alloc();
    for k in 0..23u32 {
        check_first_lines(&rt, alloc, k)?;
    }
    for (name, words, file, fails, code, want) in [
        (
            "sink-fails-late",
            ["script", "S"].as_slice(),
            FIRST,
            23,
            0,
            FIRST_REPORT,
        ),
        ("usage-sink-fails", &[], "", 0, 6, ""),
        (
            "image-cut",
            &["script", "S"],
            "",
            1,
            6,
            "sanctum report 1\n",
        ),
    ] {
        let files = Files {
            failing_puts: &[fails],
            ..Files::of_script(file.as_bytes(), b"")
        };
        check_files(&rt, alloc, name, words, &files, code, want)?;
    }
    Ok(())
}

/// Row `drip`, and the empty script over a depot and a sink that never fail.
#[test]
fn other_depots_and_sinks(rt: HostRuntime) -> Result<(), Fail> {
    let alloc = rt.alloc();
    let words = words_of(alloc, &["script", "S"])?;
    let none = Vec::new(alloc);
    let mut depot = DripDepot::new(
        Files::of_script(FIRST.as_bytes(), b"").named(alloc)?,
        none,
        1,
    );
    let mut out = DripSink::new(alloc, ROOM, Vec::new(alloc), 1)?;
    let status = sanctum(&rt, alloc, &words, &mut depot, &mut out, &OpenGate);
    assert_eq!(rt; status.code(), 0, "drip");
    assert_eq!(rt; out.as_slice(), FIRST_REPORT.as_bytes(), "drip");

    let mut still = StillDepot::new(Files::of_script(b"", b"").named(alloc)?);
    let mut sink = StillSink::new(alloc)?;
    let status = sanctum(&rt, alloc, &words, &mut still, &mut sink, &OpenGate);
    let want = format!(in alloc; "{HEAD}log 0\n{TABLES}")?;
    assert_eq!(rt; status.code(), 0, "empty-script");
    assert_eq!(rt; sink.as_slice(), want.as_bytes(), "empty-script");
    Ok(())
}
