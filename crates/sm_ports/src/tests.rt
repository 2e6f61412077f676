//! Each depot and each sink where it answers and where it fails.

use crate::{
    Depot, DripDepot, DripSink, Failed, FileDepot, Gate, MapDepot, OpenGate, ReadError, Sink,
    StdSink, StillDepot, StillSink, VecSink, put_all, read_file,
};
use std::alloc::{AllocError, Global};
use std::fs;
use std::test::Fail;

/// Two files of the name "a", of which the second is never read.
fn files(alloc: Global) -> Result<Vec<(String, Vec<u8>)>, AllocError> {
    let mut files = Vec::new(alloc);
    for text in ["hello", "other"] {
        files.push((
            String::from_str(alloc, "a")?,
            Vec::from_slice(alloc, text.as_bytes())?,
        ))?;
    }
    Ok(files)
}

fn numbers(alloc: Global, numbers: &[u32]) -> Result<Vec<u32>, AllocError> {
    Vec::from_slice(alloc, numbers)
}

/// Reads at most four bytes a call: of "a" at its first place, again, near its end, at its end, and of a
/// name that is in no pair.
fn reads<D: Depot>(depot: &mut D) -> [Result<usize, Failed>; 5] {
    let mut into = [0u8; 4];
    [
        depot.read_at("a", 0, &mut into),
        depot.read_at("a", 0, &mut into),
        depot.read_at("a", 4, &mut into),
        depot.read_at("a", 5, &mut into),
        depot.read_at("c", 0, &mut into),
    ]
}

#[test]
fn depots_answer_and_fail(rt: HostRuntime) -> Result<(), Fail> {
    let alloc = rt.alloc();
    let fails = [1, 7];

    let mut map = MapDepot::new(files(alloc)?, numbers(alloc, &fails)?);
    assert_eq!(rt;
        reads(&mut map),
        [Ok(4), Err(Failed), Ok(1), Ok(0), Err(Failed)]
    );
    let read = read_file(alloc, &mut map, "a", 9)?;
    assert_eq!(rt; read.as_slice(), b"hello".as_slice());
    let failed = read_file(alloc, &mut map, "a", 9);
    assert!(rt; matches!(&failed, Err(ReadError::Failed)));

    let mut drip = DripDepot::new(files(alloc)?, numbers(alloc, &fails)?, 2);
    assert_eq!(rt;
        reads(&mut drip),
        [Ok(2), Err(Failed), Ok(1), Ok(0), Err(Failed)]
    );
    let missing = read_file(alloc, &mut drip, "c", 9);
    assert!(rt; matches!(&missing, Err(ReadError::Failed)));

    let mut still = StillDepot::new(files(alloc)?);
    assert_eq!(rt; reads(&mut still), [Ok(4), Ok(4), Ok(1), Ok(0), Ok(0)]);
    let cut = read_file(alloc, &mut still, "a", 4)?;
    assert_eq!(rt; cut.as_slice(), b"hell".as_slice());
    Ok(())
}

#[test]
fn sinks_take_and_fail(rt: HostRuntime) -> Result<(), Fail> {
    let alloc = rt.alloc();
    for (fails, room, vec_takes, drip_takes) in [
        ([9].as_slice(), 8, "hello", "hello"),
        (&[9], 4, "hell", "hell"),
        (&[1], 8, "hello", "he"),
        (&[0], 8, "", ""),
    ] {
        let whole = |taken: &str| if taken.len() == 5 {
            Ok(())
        } else {
            Err(Failed)
        };

        let mut out = VecSink::new(alloc, room, numbers(alloc, fails)?)?;
        assert_eq!(rt; put_all(&mut out, b"hello"), whole(vec_takes));
        assert_eq!(rt; out.as_slice(), vec_takes.as_bytes());

        let mut out = DripSink::new(alloc, room, numbers(alloc, fails)?, 2)?;
        assert_eq!(rt; put_all(&mut out, b"hello"), whole(drip_takes));
        assert_eq!(rt; out.as_slice(), drip_takes.as_bytes());
    }

    let mut out = StillSink::new(alloc)?;
    let many = vec![in alloc; 7; 40_000]?;
    assert_eq!(rt; out.put(&many), Ok(40_000));
    assert_eq!(rt; out.put(&many), Ok(40_000));
    assert_eq!(rt; (out.given(), out.as_slice().len()), (80_000, 65_536));
    Ok(())
}

#[test]
fn the_system_is_reached(rt: HostRuntime) -> Result<(), Fail> {
    let alloc = rt.alloc();
    let name = "sm_ports_test.txt";
    fs::write(&rt, name, "hello")?;
    let mut depot = FileDepot::new(&rt);
    let read = read_file(alloc, &mut depot, name, 9);
    fs::remove_file(&rt, name)?;
    assert_eq!(rt; read?.as_slice(), b"hello".as_slice());
    let gone = read_file(alloc, &mut depot, name, 9);
    assert!(rt; matches!(&gone, Err(ReadError::Failed)));

    let mut out = StdSink::new(&rt);
    assert_eq!(rt;
        put_all(&mut out, b"a line of the standard output\n"),
        Ok(())
    );
    OpenGate.before(0, 0);
    OpenGate.after(0, 0);
    Ok(())
}
