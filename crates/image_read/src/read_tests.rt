//! Images by hand, and their first faults, with places that are worked out by hand.

use crate::{ImageError, ImageFault, LIMIT, parse_image, read_image};
use mon_types::{Config, Start};
use reader_answers::ParseError;
use sha2::{Digest, Sha256};
use sm_ports::{DripDepot, MapDepot};
use std::alloc::{AllocError, Global};
use std::process::Abort;
use std::test::Fail;

/// One core, 8 regions of one page, two segments of 8 and 16 bytes.
const PLAIN: [u8; 88] = [
    0x53, 0x41, 0x4e, 0x43, 0x54, 0x55, 0x4d, 0x01, // SANCTUM, version 1
    0x01, 0x03, 0x00, 0x00, 0x02, 0x00, 0x00, 0x00, // 1 core, 8 regions, 1 page, 2 segments
    0x00, 0x00, 0x00, 0x80, 0x00, 0x00, 0x00, 0x00, // pc 0x80000000
    0x00, 0x01, 0x00, 0x00, 0x00, 0x00, 0x00, 0x00, // sp 256
    0x00, 0x10, 0x00, 0x80, 0x00, 0x00, 0x00, 0x00, // address 0x80001000
    0x08, 0x00, 0x00, 0x00, 0x00, 0x00, 0x00, 0x00, // 8 bytes
    0x01, 0x02, 0x03, 0x04, 0x05, 0x06, 0x07, 0x08, // one word
    0x08, 0x10, 0x00, 0x80, 0x00, 0x00, 0x00, 0x00, // address 0x80001008, right behind
    0x10, 0x00, 0x00, 0x00, 0x00, 0x00, 0x00, 0x00, // 16 bytes
    0xff, 0x00, 0x00, 0x00, 0x00, 0x00, 0x00, 0x00, // 255
    0x00, 0x00, 0x00, 0x00, 0x00, 0x00, 0x00, 0x80, // 2 ^ 63
];

/// The plain machine with one core and no segments, in version 2; its digest is that of another program.
const SEALED: [u8; 64] = [
    0x53, 0x41, 0x4e, 0x43, 0x54, 0x55, 0x4d, 0x02, 0x01, 0x03, 0x00, 0x00, 0x00, 0x00, 0x00, 0x00,
    0x00, 0x00, 0x00, 0x80, 0x00, 0x00, 0x00, 0x00, 0x00, 0x00, 0x00, 0x00, 0x00, 0x00, 0x00, 0x00,
    0x57, 0xe5, 0x2a, 0x22, 0x46, 0x78, 0xcd, 0x80, 0xf3, 0xf4, 0x6b, 0xae, 0x5f, 0x7e, 0xd5, 0xbb,
    0xd7, 0x95, 0x4a, 0xb7, 0xae, 0xe3, 0x9f, 0x50, 0x82, 0xf1, 0x75, 0x13, 0x14, 0x0c, 0x4c, 0xe3,
];

/// What is wrong with an image; the empty text where nothing is.
fn fault(alloc: Global, bytes: &[u8]) -> Result<String, AllocError> {
    match parse_image(alloc, bytes) {
        Ok(_) => Ok(String::new(alloc)),
        Err(ParseError::Fault(fault)) => format!(in alloc; "{fault}"),
        Err(ParseError::Memory) => String::from_str(alloc, "no memory"),
    }
}

/// The same for these bytes with one of them changed.
fn changed(alloc: Global, bytes: &[u8], at: usize, byte: u8) -> Result<String, AllocError> {
    let mut copy = Vec::from_slice(alloc, bytes)?;
    if let Some(there) = copy.get_mut(at) {
        *there = byte;
    }
    fault(alloc, &copy)
}

/// The same for these bytes with one more behind them.
fn longer(alloc: Global, bytes: &[u8]) -> Result<String, AllocError> {
    let mut copy = Vec::from_slice(alloc, bytes)?;
    copy.push(0)?;
    fault(alloc, &copy)
}

#[test]
fn an_image_is_read(rt: HostRuntime) -> Result<(), Fail> {
    let alloc = rt.alloc();
    let image = parse_image(alloc, &PLAIN)
        .ok()
        .ok_or("the bytes are an image")?;
    assert_eq!(rt; image.config, Config::plain(1));
    assert_eq!(rt;
        image.starts.as_slice(),
        [Start {
            pc: 0x8000_0000,
            sp: 256
        }]
        .as_slice()
    );
    let [first, second] = image.segments.as_slice() else {
        return Err("two segments".into());
    };
    assert_eq!(rt; first.address, 0x8000_1000);
    assert_eq!(rt; first.words.as_slice(), [0x0807_0605_0403_0201].as_slice());
    assert_eq!(rt; second.address, 0x8000_1008);
    assert_eq!(rt; second.words.as_slice(), [255, 1 << 63].as_slice());
    let sealed = parse_image(alloc, &SEALED)
        .ok()
        .ok_or("the bytes are an image")?;
    assert_eq!(rt;
        sealed.starts.as_slice(),
        [Start {
            pc: 0x8000_0000,
            sp: 0
        }]
        .as_slice()
    );
    assert_eq!(rt; sealed.segments.len(), 0);
    Ok(())
}

/// Checks the fault of the bytes with one changed; the empty text where there is none.
fn check_changed(
    rt: &impl Abort,
    alloc: Global,
    bytes: &[u8],
    at: usize,
    byte: u8,
    want: &str,
) -> Result<(), Fail> {
    assert_eq!(rt; changed(alloc, bytes, at, byte)?.as_str(), want);
    Ok(())
}

/// Checks that the bytes are the beginning of an image, which is short at their end.
fn check_short(rt: &impl Abort, alloc: Global, bytes: &[u8]) -> Result<(), Fail> {
    let n = bytes.len();
    let want = format!(in alloc; "image short at {n}")?;
    assert_eq!(rt; fault(alloc, bytes)?.as_str(), want.as_str());
    Ok(())
}

#[test]
fn the_first_fault_is_named(rt: HostRuntime) -> Result<(), Fail> {
    let alloc = rt.alloc();
    for (at, byte, want) in [
        (0, 0x73, "image bad magic"),
        (6, 0x6d, "image bad magic"),
        (7, 0, "image bad version"),
        (7, 3, "image bad version"),
        (8, 0, "image bad field at 8"),
        (8, 9, "image bad field at 8"),
        // The second core starts with the first segment's address and size.
        (8, 2, "image bad field at 48"),
        (9, 0, "image bad field at 9"),
        (9, 7, "image bad field at 9"),
        (10, 5, "image bad field at 10"),
        (11, 1, "image bad field at 11"),
        (12, 65, "image bad field at 12"),
        (13, 1, "image bad field at 12"),
        (14, 1, "image bad field at 14"),
        (15, 1, "image bad field at 14"),
        (16, 2, "image bad field at 16"),
        (31, 255, ""),
        (32, 4, "image bad field at 32"),
        (40, 0, "image bad field at 40"),
        (40, 4, "image bad field at 40"),
        (44, 1, "image bad field at 44"),
        (47, 1, "image bad field at 44"),
        // 0x7f001000, and 0x80008000, which is the end of DRAM.
        (35, 0x7f, "image out of range segment 0"),
        (33, 0x80, "image out of range segment 0"),
        (43, 1, "image out of range segment 0"),
        (63, 0xff, "image out of range segment 1"),
        (33, 0x7f, "image overlap segment 1"),
        (56, 0, "image overlap segment 1"),
        (56, 16, ""),
        (40, 48, "image short at 88"),
        (12, 0, "image trailing at 32"),
        (12, 1, "image trailing at 56"),
        (12, 3, "image short at 88"),
        (64, 24, "image short at 88"),
        (7, 2, "image short at 88"),
    ] {
        check_changed(&rt, alloc, &PLAIN, at, byte, want)?;
    }
    assert_eq!(rt; longer(alloc, &PLAIN)?.as_str(), "image trailing at 88");
    Ok(())
}

#[test]
fn a_digest_is_checked(rt: HostRuntime) -> Result<(), Fail> {
    let alloc = rt.alloc();
    for (at, byte, want) in [
        (63, 0xe4, "image bad digest at 32"),
        (32, 0x58, "image bad digest at 32"),
        (24, 8, "image bad digest at 32"),
        (7, 1, "image trailing at 32"),
        (8, 17, "image bad field at 8"),
        // The second core starts with the digest.
        (8, 16, "image bad field at 32"),
    ] {
        check_changed(&rt, alloc, &SEALED, at, byte, want)?;
    }
    assert_eq!(rt; longer(alloc, &SEALED)?.as_str(), "image trailing at 64");
    Ok(())
}

#[test]
fn a_cut_image_is_short(rt: HostRuntime) -> Result<(), Fail> {
    let alloc = rt.alloc();
    for bytes in [PLAIN.as_slice(), SEALED.as_slice()] {
        for n in 0..bytes.len() {
            check_short(&rt, alloc, &bytes[..n])?;
        }
    }
    Ok(())
}

#[test]
fn the_limit_comes_first(rt: HostRuntime) -> Result<(), Fail> {
    let alloc = rt.alloc();
    let mut bytes = vec![in alloc; 0u8; LIMIT]?;
    assert_eq!(rt; fault(alloc, &bytes)?.as_str(), "image bad magic");
    bytes.push(0)?;
    assert_eq!(rt; fault(alloc, &bytes)?.as_str(), "image too long");
    Ok(())
}

/// Version 2, 16 cores, 64 regions of 16 pages, and 64 segments of one word, each right behind the other.
fn most_parts(alloc: Global) -> Result<Vec<u8>, AllocError> {
    let mut bytes = Vec::from_slice(alloc, b"SANCTUM\x02\x10\x06\x04\x04\x40\x00\x00\x00")?;
    for _ in 0..16 {
        bytes.extend_from_slice(&0x8000_0000_u64.to_le_bytes())?;
        bytes.extend_from_slice(&[7; 8])?;
    }
    for segment in 0..64_u64 {
        bytes.extend_from_slice(&(0x803f_fe00 + 8 * segment).to_le_bytes())?;
        bytes.extend_from_slice(&8_u64.to_le_bytes())?;
        bytes.extend_from_slice(&segment.to_le_bytes())?;
    }
    let digest = Sha256::digest(&bytes);
    bytes.extend_from_slice(&digest)?;
    Ok(bytes)
}

#[test]
fn as_many_parts_as_there_may_be(rt: HostRuntime) -> Result<(), Fail> {
    let alloc = rt.alloc();
    let bytes = most_parts(alloc)?;
    let image = parse_image(alloc, &bytes)
        .ok()
        .ok_or("the bytes are an image")?;
    assert_eq!(rt; image.starts.len(), 16);
    assert_eq!(rt; image.segments.len(), 64);
    let [first, .., last] = image.segments.as_slice() else {
        return Err("two segments or more".into());
    };
    assert_eq!(rt; first.words.as_slice(), [0].as_slice());
    assert_eq!(rt; last.words.as_slice(), [63].as_slice());
    // The last one's header stands at 1784: its address is 0x803ffff8, of which one byte is changed.
    let moved = changed(alloc, &bytes, 1785, 0)?;
    assert_eq!(rt; moved.as_str(), "image overlap segment 63");
    let outside = changed(alloc, &bytes, 1786, 0x40)?;
    assert_eq!(rt; outside.as_str(), "image out of range segment 63");
    Ok(())
}

/// Checks whether a file is read whose depot fails this call.
fn check_failing_call(rt: &impl Abort, alloc: Global, fails: u32, read: bool) -> Result<(), Fail> {
    let mut files = Vec::new(alloc);
    files.push((
        String::from_str(alloc, "it")?,
        Vec::from_slice(alloc, &PLAIN)?,
    ))?;
    let mut depot = MapDepot::new(files, Vec::from_array(alloc, [fails])?);
    match read_image(alloc, &mut depot, "it") {
        Ok(image) => {
            assert!(rt; read);
            assert_eq!(rt; image.segments.len(), 2);
        }
        Err(ImageError::Read(_)) => assert!(rt; !read),
        Err(_) => return Err("no fault of the file".into()),
    }
    Ok(())
}

#[test]
fn files_are_read(rt: HostRuntime) -> Result<(), Fail> {
    let alloc = rt.alloc();
    for (fails, read) in [(0, false), (1, false), (2, true)] {
        check_failing_call(&rt, alloc, fails, read)?;
    }
    let mut files = Vec::new(alloc);
    files.push((
        String::from_str(alloc, "it")?,
        Vec::from_slice(alloc, &PLAIN[..80])?,
    ))?;
    let mut depot = DripDepot::new(files, Vec::new(alloc), 3);
    let cut = read_image(alloc, &mut depot, "it");
    assert!(rt; matches!(&cut, Err(ImageError::Fault(ImageFault::Short { at: 80 }))));
    let none = read_image(alloc, &mut depot, "none");
    assert!(rt; matches!(&none, Err(ImageError::Read(_))));
    Ok(())
}
