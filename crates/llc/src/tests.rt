//! Hits worked out by hand.

ghost use Rattle.std.specs.Prelude.{◌≤◌};

use crate::Llc;
use dram_map::page_of;
use mon_types::Config;
use std::alloc::{AllocError, Global};
use std::process::Abort;
use std::test::Fail;

/// Which of these accesses are hits, one letter each: `h` for a hit, `m` for a miss. An address outside DRAM
/// is left out.
fn letters(alloc: Global, config: Config, ways: u8, addresses: &[u64]) -> Result<String, AllocError>
    requires from { 1 ≤ ways }
    requires to { ways ≤ 16 }
{
    let mut cache = Llc::new(alloc, config, ways)?;
    let mut letters = String::new(alloc);
    for address in addresses {
        if page_of(&config, *address).is_some() {
            letters.push(if cache.access(*address) { 'h' } else { 'm' })?;
        }
    }
    Ok(letters)
}

/// The machine with so many regions, pages in each and shift. A test that names none fails.
fn machine(rt: &impl Abort, regions: u8, pages: u8, shift: u8) -> Config {
    Config::new(1, regions, pages, shift).expect(rt, "no such machine")
}

#[test]
fn a_line_has_64_bytes(rt: HostRuntime) -> Result<(), Fail> {
    let config = machine(&rt, 2, 1, 0);
    // the first and the last byte of a line, and the first of the next, which has a set of its own
    let addresses = [0x8000_0000, 0x8000_003F, 0x8000_0040, 0x8000_0000];
    assert_eq!(rt;
        letters(rt.alloc(), config, 1, &addresses)?.as_str(),
        "mhmh"
    );
    Ok(())
}

#[test]
fn two_colours(rt: HostRuntime) -> Result<(), Fail> {
    let config = machine(&rt, 2, 1, 0);
    let addresses = [0x8000_0000, 0x8000_1000, 0x8000_0000, 0x8000_1000];
    assert_eq!(rt;
        letters(rt.alloc(), config, 1, &addresses)?.as_str(),
        "mmhh"
    );
    Ok(())
}

#[test]
fn one_set_thrashes(rt: HostRuntime) -> Result<(), Fail> {
    let config = machine(&rt, 2, 2, 0);
    // pages 0 and 2 are both of region 0
    let addresses = [0x8000_0000, 0x8000_2000, 0x8000_0000];
    assert_eq!(rt; letters(rt.alloc(), config, 1, &addresses)?.as_str(), "mmm");
    assert_eq!(rt; letters(rt.alloc(), config, 2, &addresses)?.as_str(), "mmh");
    Ok(())
}

#[test]
fn a_shift_keeps_pages_together(rt: HostRuntime) -> Result<(), Fail> {
    // without a shift pages 0 and 1 are of two regions; with one they are of the same, and page 2 is of the
    // other
    let addresses = [0x8000_0000, 0x8000_1000, 0x8000_2000, 0x8000_0000];
    assert_eq!(rt;
        letters(rt.alloc(), machine(&rt, 2, 2, 0), 1, &addresses)?.as_str(),
        "mmmm"
    );
    assert_eq!(rt;
        letters(rt.alloc(), machine(&rt, 2, 2, 1), 1, &addresses)?.as_str(),
        "mmmm"
    );
    let apart = [0x8000_0000, 0x8000_1000, 0x8000_0000];
    assert_eq!(rt;
        letters(rt.alloc(), machine(&rt, 2, 2, 0), 1, &apart)?.as_str(),
        "mmh"
    );
    assert_eq!(rt;
        letters(rt.alloc(), machine(&rt, 2, 2, 1), 1, &apart)?.as_str(),
        "mmm"
    );
    Ok(())
}

#[test]
fn a_hit_refreshes(rt: HostRuntime) -> Result<(), Fail> {
    let config = machine(&rt, 2, 4, 0);
    let (a, b, c) = (0x8000_0000, 0x8000_2000, 0x8000_4000);
    // the second a is a hit, so c drops b
    assert_eq!(rt;
        letters(rt.alloc(), config, 2, &[a, b, a, c, a, b])?.as_str(),
        "mmhmhm"
    );
    // b was used last, so c drops a
    assert_eq!(rt;
        letters(rt.alloc(), config, 2, &[a, b, c, b, a])?.as_str(),
        "mmmhm"
    );
    Ok(())
}

#[test]
fn a_line_used_twice_counts_once(rt: HostRuntime) -> Result<(), Fail> {
    let config = machine(&rt, 2, 4, 0);
    let (a, b, c) = (0x8000_0000, 0x8000_2000, 0x8000_4000);
    // between the two a stands one other line, three times
    assert_eq!(rt;
        letters(rt.alloc(), config, 2, &[a, b, b, b, a])?.as_str(),
        "mmhhh"
    );
    // and here two others
    assert_eq!(rt;
        letters(rt.alloc(), config, 2, &[a, b, c, b, a])?.as_str(),
        "mmmhm"
    );
    assert_eq!(rt;
        letters(rt.alloc(), config, 3, &[a, b, c, b, a])?.as_str(),
        "mmmhh"
    );
    Ok(())
}

#[test]
fn sixteen_ways_hold_sixteen_lines(rt: HostRuntime) -> Result<(), Fail> {
    let config = machine(&rt, 2, 16, 0);
    // the first lines of the 16 pages of region 0, in turn, twice
    let addresses = [
        0x8000_0000,
        0x8000_2000,
        0x8000_4000,
        0x8000_6000,
        0x8000_8000,
        0x8000_A000,
        0x8000_C000,
        0x8000_E000,
        0x8001_0000,
        0x8001_2000,
        0x8001_4000,
        0x8001_6000,
        0x8001_8000,
        0x8001_A000,
        0x8001_C000,
        0x8001_E000,
        0x8000_0000,
        0x8000_2000,
        0x8000_4000,
        0x8000_6000,
    ];
    assert_eq!(rt;
        letters(rt.alloc(), config, 16, &addresses)?.as_str(),
        "mmmmmmmmmmmmmmmmhhhh"
    );
    assert_eq!(rt;
        letters(rt.alloc(), config, 15, &addresses)?.as_str(),
        "mmmmmmmmmmmmmmmmmmmm"
    );
    Ok(())
}

#[test]
fn other_regions_change_nothing(rt: HostRuntime) -> Result<(), Fail> {
    let config = machine(&rt, 4, 2, 0);
    // region 0's lines a and b in one set; region 3's lines of the same number between them
    let (a, b) = (0x8000_0000, 0x8000_4000);
    let (other, third) = (0x8000_3000, 0x8000_7000);
    assert_eq!(rt; letters(rt.alloc(), config, 2, &[a, b, a])?.as_str(), "mmh");
    assert_eq!(rt;
        letters(rt.alloc(), config, 2, &[a, other, third, b, other, a])?.as_str(),
        "mmmmhh"
    );
    Ok(())
}

#[test]
fn the_last_line_of_the_largest_machine(rt: HostRuntime) -> Result<(), Fail> {
    let config = machine(&rt, 64, 16, 4);
    let addresses = [0x803F_FFFF, 0x803F_FFC0, 0x8040_0000];
    assert_eq!(rt; letters(rt.alloc(), config, 1, &addresses)?.as_str(), "mh");
    Ok(())
}
