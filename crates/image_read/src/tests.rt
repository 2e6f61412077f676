//! Whole texts of both versions, written out by hand; the digest is that of another program.

ghost use Rattle.std.specs.Prelude.{◌≡◌, ◌≤◌, length, IfOk};
ghost use Rattle.mon_types.specs.Shape.{plain};
ghost use Rattle.dram_map.specs.Addresses.{dram_start};
ghost use Rattle.image_read.specs.Image.{AreSegments, IsImage};

use crate::{write_image, write_image_2};
use dram_map::DRAM_START;
use mon_types::{Config, Image, Items, Segment, Start};
use sm_ports::{Failed, VecSink};
use std::alloc::{AllocError, Global};
use std::test::Fail;

/// The plain machine with one core and these segments.
fn image(alloc: Global, segments: Items<Segment>) -> Result<Image, AllocError>
    requires few { length segments ≤ 64 }
    requires segments { AreSegments (plain 1) dram_start segments }
    ensures first { IfOk result (λ i. IsImage 1 i) }
    ensures second { IfOk result (λ i. IsImage 2 i) }
{
    let mut starts = Items::new(alloc);
    starts.push(Start {
        pc: DRAM_START,
        sp: 0,
    })?;
    Ok(Image {
        config: Config::plain(1),
        starts,
        segments,
    })
}

/// `addi x17, x0, 4`, `ecall`, `ebreak` and a word of padding.
fn guest(alloc: Global) -> Result<Items<Segment>, AllocError>
    ensures few { IfOk result (λ s. length s ≤ 64) }
    ensures segments { IfOk result (λ s. AreSegments (plain 1) dram_start s) }
{
    let mut segments = Items::new(alloc);
    segments.push(Segment {
        address: DRAM_START,
        words: Items::from_vec(Vec::from_array(
            alloc,
            [0x0000_0073_0040_0893, 0x0000_0000_0010_0073],
        )?),
    })?;
    Ok(segments)
}

#[test]
fn version_1(rt: HostRuntime) -> Result<(), Fail> {
    let alloc = rt.alloc();
    let packed = image(alloc, guest(alloc)?)?;
    let mut out = VecSink::new(alloc, 64, Vec::new(alloc))?;
    assert_eq!(rt; write_image(&packed, &mut out), Ok(()));
    assert_eq!(rt;
        out.as_slice(),
        [
            0x53, 0x41, 0x4e, 0x43, 0x54, 0x55, 0x4d, 0x01, 0x01, 0x03, 0x00, 0x00, 0x01, 0x00,
            0x00, 0x00, 0x00, 0x00, 0x00, 0x80, 0x00, 0x00, 0x00, 0x00, 0x00, 0x00, 0x00, 0x00,
            0x00, 0x00, 0x00, 0x00, 0x00, 0x00, 0x00, 0x80, 0x00, 0x00, 0x00, 0x00, 0x10, 0x00,
            0x00, 0x00, 0x00, 0x00, 0x00, 0x00, 0x93, 0x08, 0x40, 0x00, 0x73, 0x00, 0x00, 0x00,
            0x73, 0x00, 0x10, 0x00, 0x00, 0x00, 0x00, 0x00,
        ]
        .as_slice()
    );
    let mut small = VecSink::new(alloc, 63, Vec::new(alloc))?;
    assert_eq!(rt; write_image(&packed, &mut small), Err(Failed));
    Ok(())
}

#[test]
fn version_2(rt: HostRuntime) -> Result<(), Fail> {
    let alloc = rt.alloc();
    let plain = image(alloc, Items::new(alloc))?;
    let mut out = VecSink::new(alloc, 64, Vec::new(alloc))?;
    assert_eq!(rt; write_image_2(&plain, &mut out), Ok(()));
    assert_eq!(rt;
        out.as_slice(),
        [
            0x53, 0x41, 0x4e, 0x43, 0x54, 0x55, 0x4d, 0x02, 0x01, 0x03, 0x00, 0x00, 0x00, 0x00,
            0x00, 0x00, 0x00, 0x00, 0x00, 0x80, 0x00, 0x00, 0x00, 0x00, 0x00, 0x00, 0x00, 0x00,
            0x00, 0x00, 0x00, 0x00, 0x57, 0xe5, 0x2a, 0x22, 0x46, 0x78, 0xcd, 0x80, 0xf3, 0xf4,
            0x6b, 0xae, 0x5f, 0x7e, 0xd5, 0xbb, 0xd7, 0x95, 0x4a, 0xb7, 0xae, 0xe3, 0x9f, 0x50,
            0x82, 0xf1, 0x75, 0x13, 0x14, 0x0c, 0x4c, 0xe3,
        ]
        .as_slice()
    );
    let mut small = VecSink::new(alloc, 63, Vec::new(alloc))?;
    assert_eq!(rt; write_image_2(&plain, &mut small), Err(Failed));
    Ok(())
}
