//! The worked rows of the coloured cache by the command `llc`. Hits are worked out by hand.

use crate::tests::{Files, check_answer, check_files};
use std::test::Fail;

/// Rows `two-colours`, `one-set-thrashes`, `trace-outside-dram` and `trace-empty`, and other traces.
#[test]
fn rows_of_traces(rt: HostRuntime) -> Result<(), Fail> {
    let alloc = rt.alloc();
    for (name, trace, code, want) in [
        (
            "two-colours",
            "cache 2 1 0 1\n0x80000000\n0x80001000\n0x80000000\n0x80001000\n",
            0,
            "region 0 accesses 2 hits 1\nregion 1 accesses 2 hits 1\nend\n",
        ),
        (
            "one-set-thrashes",
            "cache 2 2 0 1\n0x80000000\n0x80002000\n0x80000000\n",
            0,
            "region 0 accesses 3 hits 0\nregion 1 accesses 0 hits 0\nend\n",
        ),
        (
            "one-set-thrashes, and two ways end it",
            "cache 2 2 0 2\n0x80000000\n0x80002000\n0x80000000\n",
            0,
            "region 0 accesses 3 hits 1\nregion 1 accesses 0 hits 0\nend\n",
        ),
        (
            "trace-outside-dram",
            "cache 2 1 0 1\n0x80002000\n",
            11,
            "refused: trace line 2\n",
        ),
        ("trace-empty", "", 11, "refused: trace line 1\n"),
        (
            "comments, blanks and the last byte of DRAM",
            "# a trace\n\n cache 2 1 0 1 # one way\r\n\t0x80001fff # last\n2147491776",
            0,
            "region 0 accesses 0 hits 0\nregion 1 accesses 2 hits 1\nend\n",
        ),
        (
            "17 ways",
            "\n\ncache 2 1 0 17\n",
            11,
            "refused: trace line 3\n",
        ),
        (
            "two words",
            "cache 2 1 0 1\n0x80000000 0\n",
            11,
            "refused: trace line 2\n",
        ),
    ] {
        check_answer(
            &rt,
            alloc,
            name,
            &["llc", "S"],
            trace.as_bytes(),
            code,
            want,
        )?;
    }
    Ok(())
}

#[test]
fn traces_that_are_too_long_or_missing(rt: HostRuntime) -> Result<(), Fail> {
    let alloc = rt.alloc();
    let signs = vec![in alloc; b'#'; 16_777_217]?;
    let long = "refused: trace too long\n";
    check_answer(&rt, alloc, "too long", &["llc", "S"], &signs, 11, long)?;
    let read = "refused: read fault\n";
    check_answer(&rt, alloc, "missing", &["llc", "X"], b"", 5, read)
}

/// A sink that fails call k has the first k lines.
#[test]
fn a_sink_that_fails(rt: HostRuntime) -> Result<(), Fail> {
    let alloc = rt.alloc();
    for (name, k, want) in [
        ("call 0", 0, ""),
        ("call 1", 1, "region 0 accesses 1 hits 0\n"),
        (
            "call 2",
            2,
            "region 0 accesses 1 hits 0\nregion 1 accesses 0 hits 0\n",
        ),
    ] {
        let trace = "cache 2 1 0 1\n0x80000000\n";
        let files = Files {
            failing_puts: &[k],
            ..Files::of_script(trace.as_bytes(), b"")
        };
        check_files(&rt, alloc, name, &["llc", "S"], &files, 6, want)?;
    }
    Ok(())
}
