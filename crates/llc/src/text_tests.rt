//! Traces that are read, the first faulty line of each that is not, and the hits of some.

use crate::{LIMIT, TraceError, TraceFault, hits, parse_trace, print_tallies, read_trace, tallies};
use reader_answers::ParseError;
use sm_ports::{DripDepot, Failed, MapDepot, VecSink};
use std::alloc::{AllocError, Global};
use std::process::Abort;
use std::test::Fail;

/// The first faulty line of a trace, 0 where it is too long; None where nothing is wrong with it.
fn faulty_line(alloc: Global, text: &[u8]) -> Result<Option<u32>, AllocError> {
    match parse_trace(alloc, text) {
        Ok(_) => Ok(None),
        Err(ParseError::Fault(TraceFault::TooLong)) => Ok(Some(0)),
        Err(ParseError::Fault(TraceFault::BadLine { line })) => Ok(Some(line)),
        Err(ParseError::Memory) => Err(AllocError),
    }
}

/// Checks the first faulty line of a trace.
fn check_faulty_line(
    rt: &impl Abort,
    alloc: Global,
    text: &[u8],
    want: Option<u32>,
) -> Result<(), Fail> {
    assert_eq!(rt; faulty_line(alloc, text)?, want);
    Ok(())
}

/// Which accesses of a trace are hits, one letter each: `h` for a hit, `m` for a miss.
fn letters(alloc: Global, text: &[u8]) -> Result<String, ParseError<TraceFault>> {
    let trace = parse_trace(alloc, text)?;
    let mut letters = String::new(alloc);
    for hit in &hits(alloc, &trace)? {
        letters.push(if *hit { 'h' } else { 'm' })?;
    }
    Ok(letters)
}

/// What is printed of a trace to a sink with this room, whose calls of these numbers fail.
fn printed(
    alloc: Global,
    text: &[u8],
    room: usize,
    fails: Vec<u32>,
) -> Result<(VecSink, Result<(), Failed>), ParseError<TraceFault>> {
    let trace = parse_trace(alloc, text)?;
    let tallies = tallies(alloc, &trace)?;
    let mut out = VecSink::new(alloc, room, fails)?;
    let result = print_tallies(&tallies, &mut out);
    Ok((out, result))
}

const TWO_COLOURS: &[u8] = b"cache 2 1 0 1\n0x80000000\n0x80001000\n0x80000000\n0x80001000\n";

#[test]
fn two_colours(rt: HostRuntime) -> Result<(), Fail> {
    let alloc = rt.alloc();
    assert_eq!(rt; letters(alloc, TWO_COLOURS)?.as_str(), "mmhh");
    let (out, result) = printed(alloc, TWO_COLOURS, 1000, Vec::new(alloc))?;
    assert_eq!(rt; result, Ok(()));
    assert_eq!(rt;
        out.as_slice(),
        b"region 0 accesses 2 hits 1\nregion 1 accesses 2 hits 1\nend\n".as_slice()
    );
    Ok(())
}

#[test]
fn one_set_thrashes(rt: HostRuntime) -> Result<(), Fail> {
    let alloc = rt.alloc();
    let one = b"cache 2 2 0 1\n0x80000000\n0x80002000\n0x80000000\n";
    assert_eq!(rt; letters(alloc, one)?.as_str(), "mmm");
    let (out, result) = printed(alloc, one, 1000, Vec::new(alloc))?;
    assert_eq!(rt; result, Ok(()));
    assert_eq!(rt;
        out.as_slice(),
        b"region 0 accesses 3 hits 0\nregion 1 accesses 0 hits 0\nend\n".as_slice()
    );
    let two = b"cache 2 2 0 2\n0x80000000\n0x80002000\n0x80000000\n";
    assert_eq!(rt; letters(alloc, two)?.as_str(), "mmh");
    let (out, result) = printed(alloc, two, 1000, Vec::new(alloc))?;
    assert_eq!(rt; result, Ok(()));
    assert_eq!(rt;
        out.as_slice(),
        b"region 0 accesses 3 hits 1\nregion 1 accesses 0 hits 0\nend\n".as_slice()
    );
    Ok(())
}

#[test]
fn a_sink_that_fails_has_got_a_prefix(rt: HostRuntime) -> Result<(), Fail> {
    let alloc = rt.alloc();
    // the second call fails, behind the first line
    let fails = [1].to_vec(alloc)?;
    let (out, result) = printed(alloc, TWO_COLOURS, 1000, fails)?;
    assert_eq!(rt; result, Err(Failed));
    assert_eq!(rt; out.as_slice(), b"region 0 accesses 2 hits 1\n".as_slice());
    // a sink with room for all but the last byte
    let (out, result) = printed(alloc, TWO_COLOURS, 57, Vec::new(alloc))?;
    assert_eq!(rt; result, Err(Failed));
    assert_eq!(rt;
        out.as_slice(),
        b"region 0 accesses 2 hits 1\nregion 1 accesses 2 hits 1\nend".as_slice()
    );
    Ok(())
}

#[test]
fn a_region_is_counted_without_the_others(rt: HostRuntime) -> Result<(), Fail> {
    let alloc = rt.alloc();
    // 64 regions; the last has the lines a, b and a again, and region 62 stands between
    let text =
        b"cache 64 2 0 1\n0x8003F000\n0x8003E000\n0x8003F03F\n0x8007F000\n0x8003E000\n0x8003F000\n";
    let (out, result) = printed(alloc, text, 4000, Vec::new(alloc))?;
    assert_eq!(rt; result, Ok(()));
    // the lines of regions 0 to 9 have 27 bytes, those of 10 to 61 have 28, and then come these three
    let last = b"region 62 accesses 2 hits 1\nregion 63 accesses 4 hits 1\nend\n".as_slice();
    assert!(rt; out.as_slice().ends_with(last));
    assert_eq!(rt; out.as_slice().len(), 10 * 27 + 52 * 28 + last.len());
    Ok(())
}

#[test]
fn trace_outside_dram(rt: HostRuntime) -> Result<(), Fail> {
    assert_eq!(rt;
        faulty_line(rt.alloc(), b"cache 2 1 0 1\n0x80002000")?,
        Some(2)
    );
    Ok(())
}

#[test]
fn trace_empty(rt: HostRuntime) -> Result<(), Fail> {
    assert_eq!(rt; faulty_line(rt.alloc(), b"")?, Some(1));
    Ok(())
}

#[test]
fn a_missing_head_is_behind_the_last_line(rt: HostRuntime) -> Result<(), Fail> {
    for (text, line) in [
        (b"\n".as_slice(), 2),
        (b"# nothing", 2),
        (b"# nothing\n", 2),
        (b" \t\r\n#\n\n", 4),
    ] {
        check_faulty_line(&rt, rt.alloc(), text, Some(line))?;
    }
    Ok(())
}

#[test]
fn heads_within_their_limits(rt: HostRuntime) -> Result<(), Fail> {
    for text in [
        b"cache 2 1 0 1".as_slice(),
        b" \tcache\t64  16 4\t16 # all at their most\r\n",
        b"\r\n# first\n\ncache 0x2 002 0x01 0x0F\n",
        b"cache 32 8 3 9#",
    ] {
        check_faulty_line(&rt, rt.alloc(), text, None)?;
    }
    Ok(())
}

#[test]
fn heads_outside_them(rt: HostRuntime) -> Result<(), Fail> {
    for text in [
        b"cache".as_slice(),
        b"cache 2 1 0",
        b"cache 2 1 0 1 1",
        b"cache 2 1 0 1 x",
        b"Cache 2 1 0 1",
        b"caches 2 1 0 1",
        b"0x80000000",
        // the regions are a power of two from 2 to 64, the pages one from 1 to 16
        b"cache 1 1 0 1",
        b"cache 3 1 0 1",
        b"cache 128 1 0 1",
        b"cache 2 0 0 1",
        b"cache 2 32 0 1",
        // 2 to the shift divides the pages
        b"cache 2 1 1 1",
        b"cache 2 16 5 1",
        // the ways are 1 to 16
        b"cache 2 1 0 0",
        b"cache 2 1 0 17",
        // 2 and 256 more
        b"cache 258 1 0 1",
        b"cache 18446744073709551618 1 0 1",
        b"cache -2 1 0 1",
        b"cache 2 1 0 \xC3\xA9",
    ] {
        check_faulty_line(&rt, rt.alloc(), text, Some(1))?;
    }
    Ok(())
}

#[test]
fn addresses_in_dram(rt: HostRuntime) -> Result<(), Fail> {
    for text in [
        b"cache 2 1 0 1\n2147483648".as_slice(),
        b"cache 2 1 0 1\n0x80001fff\n0x80001FFF\n",
        b"cache 2 1 0 1\n 0x0000000000000000080000000\t# the first byte\r\n",
        b"cache 64 16 4 1\n0x803fffff",
    ] {
        check_faulty_line(&rt, rt.alloc(), text, None)?;
    }
    Ok(())
}

#[test]
fn addresses_that_are_none(rt: HostRuntime) -> Result<(), Fail> {
    for text in [
        b"cache 2 1 0 1\n0x7FFFFFFF".as_slice(),
        b"cache 2 1 0 1\n0",
        b"cache 64 16 4 1\n0x80400000",
        b"cache 2 1 0 1\n0x80000000 0x80000040",
        b"cache 2 1 0 1\n0x",
        b"cache 2 1 0 1\n0X80000000",
        b"cache 2 1 0 1\n80000000",
        b"cache 2 1 0 1\n-2147483648",
        // the address and 2 to the 64
        b"cache 2 1 0 1\n18446744075857035264",
        b"cache 2 1 0 1\n0x10000000080000000",
        b"cache 2 1 0 1\ncache 2 1 0 1",
        b"cache 2 1 0 1\n0x80000000\xA0",
        // a return is dropped before a line feed alone
        b"cache 2 1 0 1\n0x80000000\r",
    ] {
        check_faulty_line(&rt, rt.alloc(), text, Some(2))?;
    }
    Ok(())
}

#[test]
fn the_first_faulty_line_decides(rt: HostRuntime) -> Result<(), Fail> {
    for (text, line) in [
        (b"cache 2 1 0\nx\n".as_slice(), 1),
        (b"\n# \xFF\ncache 2 1 0 1\n\n0x80000000\n\nx\ny", 7),
        (b"cache 2 1 0 1\n0x80000000\n0x80002000\n0x80000000", 3),
    ] {
        check_faulty_line(&rt, rt.alloc(), text, Some(line))?;
    }
    Ok(())
}

#[test]
fn empty_lines_are_no_accesses(rt: HostRuntime) -> Result<(), Fail> {
    let text =
        b"\n# a cache of one line in a set\ncache 2 1 0 1 # two regions\n\n0x80000000\n\t\n#\n0x8000003F # the same line\n";
    assert_eq!(rt; letters(rt.alloc(), text)?.as_str(), "mh");
    assert_eq!(rt; letters(rt.alloc(), b"cache 2 1 0 1\n")?.as_str(), "");
    Ok(())
}

#[test]
fn a_trace_over_its_limit(rt: HostRuntime) -> Result<(), Fail> {
    let text = vec![in rt.alloc(); b'#'; LIMIT + 1]?;
    assert_eq!(rt; faulty_line(rt.alloc(), &text)?, Some(0));
    Ok(())
}

/// The one file `t` with this text.
fn one_file(alloc: Global, text: &[u8]) -> Result<Vec<(String, Vec<u8>)>, AllocError> {
    let mut files = Vec::new(alloc);
    files.push((String::from_str(alloc, "t")?, text.to_vec(alloc)?))?;
    Ok(files)
}

#[test]
fn a_file_comes_in_pieces_and_may_fail(rt: HostRuntime) -> Result<(), Fail> {
    let alloc = rt.alloc();
    let text = b"cache 2 1 0 1\n0x80000000\n0x80000001\n";
    let mut depot = DripDepot::new(one_file(alloc, text)?, Vec::new(alloc), 3);
    let trace = read_trace(alloc, &mut depot, "t").ok().ok_or("not read")?;
    assert_eq!(rt;
        trace.addresses.as_slice(),
        [0x8000_0000, 0x8000_0001].as_slice()
    );
    // the third call fails, behind two pieces of three bytes
    let fails = [2].to_vec(alloc)?;
    let mut failing = DripDepot::new(one_file(alloc, text)?, fails, 3);
    assert!(rt;
        matches!(
            read_trace(alloc, &mut failing, "t"),
            Err(TraceError::Read(Failed))
        )
    );
    let mut depot = MapDepot::new(one_file(alloc, text)?, Vec::new(alloc));
    assert!(rt;
        matches!(
            read_trace(alloc, &mut depot, "u"),
            Err(TraceError::Read(Failed))
        )
    );
    Ok(())
}
