//! Places worked out by hand on a machine of 8 pages, and lanes read off the bytes of a word.

ghost use Rattle.std.specs.Prelude.{◌≡◌, true};

use crate::{
    Memory, first_word, frame_of, page_of, page_of_frame, page_start, put, take, word_of,
    word_start,
};
use mon_types::Config;
use std::test::Fail;

#[test]
fn dram_begins_and_ends(rt: HostRuntime) {
    let config = Config::plain(1);
    // an address, its page and its word
    let table = [
        (0, None, None),
        (0x7FFF_FFFF, None, None),
        (0x8000_0000, Some(0), Some(0)),
        (0x8000_0FFF, Some(0), Some(511)),
        (0x8000_1008, Some(1), Some(513)),
        (0x8000_7FFF, Some(7), Some(4095)),
        (0x8000_8000, None, None),
        (u64::MAX, None, None),
    ];
    for (address, page, word) in table {
        assert_eq!(rt; page_of(&config, address), page, "page of {address:#x}");
        assert_eq!(rt; word_of(&config, address), word, "word of {address:#x}");
    }
}

#[test]
fn pages_have_frames(rt: HostRuntime) {
    let config = Config::plain(1);
    assert_eq!(rt; page_start(3), 0x8000_3000);
    assert_eq!(rt; first_word(3), 1536);
    assert_eq!(rt; word_start(&config, 513), 0x8000_1008);
    assert_eq!(rt; frame_of(3), 0x80003);
    assert_eq!(rt; page_of_frame(&config, 0x80007), Some(7));
    assert_eq!(rt; page_of_frame(&config, 0x80008), None);
    assert_eq!(rt; page_of_frame(&config, 0x7FFFF), None);
}

#[test]
fn lanes_of_a_word(rt: HostRuntime) {
    let word = 0x8877_6655_4433_2211;
    assert_eq!(rt; take(word, 0, 1), 0x11);
    assert_eq!(rt; take(word, 7, 1), 0x88);
    assert_eq!(rt; take(word, 2, 2), 0x4433);
    assert_eq!(rt; take(word, 4, 4), 0x8877_6655);
    assert_eq!(rt; take(word, 0, 8), word);
    assert_eq!(rt; put(word, 0, 1, 0xAABB), 0x8877_6655_4433_22BB);
    assert_eq!(rt; put(word, 6, 2, 0xAABB), 0xAABB_6655_4433_2211);
    assert_eq!(rt; put(word, 4, 4, 0xAABB), 0x0000_AABB_4433_2211);
    assert_eq!(rt; put(word, 0, 8, 0xAABB), 0xAABB);
}

#[test]
fn words_are_stored_one_by_one(rt: HostRuntime) -> Result<(), Fail> {
    let mut memory = Memory::new(rt.alloc(), &Config::plain(1))?;
    memory.put(Some(4095), 77);
    memory.put(Some(4096), 78);
    memory.put(None, 79);
    assert_eq!(rt; memory.word(4094), 0);
    assert_eq!(rt; memory.word(4095), 77);
    assert_eq!(rt; memory.word(4096), 0);
    Ok(())
}
