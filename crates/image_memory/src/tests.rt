//! Memories worked out by hand, on the plain machine of 8 pages, which has 4,096 words.

ghost use Rattle.std.specs.Prelude.{◌≡◌, IfOk};
ghost use Rattle.mon_types.specs.Shape.{plain};
ghost use Rattle.dram_map.specs.Addresses.{dram_start};
ghost use Rattle.image_read.specs.Image.{AreSegments};

use crate::start_memory;
use dram_map::DRAM_START;
use mon_types::{Config, Image, Items, Segment};
use std::alloc::{AllocError, Global};
use std::test::Fail;

/// Words 1 and 2, word 3 right behind them, and the last word of DRAM.
fn three_segments(alloc: Global) -> Result<Items<Segment>, AllocError>
    ensures { IfOk result (λ s. AreSegments (plain 1) dram_start s) }
{
    let mut segments = Items::new(alloc);
    segments.push(Segment {
        address: DRAM_START + 8,
        words: Items::from_vec(Vec::from_array(alloc, [11, 12])?),
    })?;
    segments.push(Segment {
        address: DRAM_START + 24,
        words: Items::from_vec(Vec::from_array(alloc, [13])?),
    })?;
    segments.push(Segment {
        address: DRAM_START + 32760,
        words: Items::from_vec(Vec::from_array(alloc, [u64::MAX])?),
    })?;
    Ok(segments)
}

#[test]
fn words_stand_where_their_segments_lie(rt: HostRuntime) -> Result<(), Fail> {
    let alloc = rt.alloc();
    let image = Image {
        config: Config::plain(1),
        starts: Items::new(alloc),
        segments: three_segments(alloc)?,
    };
    let memory = start_memory(alloc, &image)?;
    for (place, word) in [
        (0, 0),
        (1, 11),
        (2, 12),
        (3, 13),
        (4, 0),
        (2048, 0),
        (4094, 0),
        (4095, u64::MAX),
    ] {
        assert_eq!(rt; memory.word(place), word, "word {place}");
    }
    assert_eq!(rt; memory.into_items().len(), 4096);
    Ok(())
}

#[test]
fn a_machine_without_segments_has_zeros(rt: HostRuntime) -> Result<(), Fail> {
    let alloc = rt.alloc();
    let image = Image {
        config: Config::plain(1),
        starts: Items::new(alloc),
        segments: Items::new(alloc),
    };
    let memory = start_memory(alloc, &image)?;
    for place in [0, 1, 511, 512, 4095] {
        assert_eq!(rt; memory.word(place), 0, "word {place}");
    }
    assert_eq!(rt; memory.into_items().len(), 4096);
    Ok(())
}
