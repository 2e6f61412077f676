//! A line and its pieces as a sink takes them.

use crate::{Line, put_line, put_piece};
use sm_ports::{DripSink, VecSink};
use std::test::Fail;

#[test]
fn a_line_goes_out_as_it_was_made(rt: HostRuntime) -> Result<(), Fail> {
    let mut line = Line::new();
    line.text("core ");
    line.small(12);
    line.all_spaced(&[0, u64::MAX]);
    line.text(" ");
    line.hex(&[0x00, 0xa7]);
    line.bytes(b"\n");
    let mut out = DripSink::new(rt.alloc(), 100, Vec::new(rt.alloc()), 3)?;
    put_line(&line, &mut out).expect(&rt, "the line");
    put_piece(b"end\n", &mut out).expect(&rt, "the piece");
    assert_eq!(rt;
        out.as_slice(),
        b"core 12 0 18446744073709551615 00a7\nend\n".as_slice()
    );
    Ok(())
}

#[test]
fn a_sink_that_fails_has_a_proper_prefix(rt: HostRuntime) -> Result<(), Fail> {
    let mut out = VecSink::new(rt.alloc(), 4, Vec::new(rt.alloc()))?;
    assert!(rt; put_piece(b"region 0\n", &mut out).is_err());
    assert_eq!(rt; out.as_slice(), b"regi".as_slice());
    Ok(())
}
