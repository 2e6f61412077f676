//! Looks and fills worked out by hand.

use crate::Tlb;
use std::process::Abort;
use sv39_pte::Access;

/// Fills virtual pages in, each with the page of the same number, for every access.
fn fill_all(cache: &mut Tlb, pages: &[u16]) {
    for page in pages {
        cache.fill(u64::from(*page), *page, true, true, true);
    }
}

/// Checks which of some virtual pages are found for a load, with the pages of their numbers.
fn expect(rt: &impl Abort, cache: &Tlb, pages: &[(u16, bool)]) {
    for (page, is_found) in pages {
        let found = cache.look(u64::from(*page), Access::Load);
        let wanted = if *is_found { Some(*page) } else { None };
        assert_eq!(rt; found, wanted, "virtual page {page}");
    }
}

#[test]
fn a_set_keeps_its_newest_four(rt: HostRuntime) {
    let mut cache = Tlb::new();
    fill_all(&mut cache, &[0, 4, 8, 12, 4, 16]);
    // 4 was filled in again, so 0 was the oldest when 16 came
    expect(
        &rt,
        &cache,
        &[(0, false), (8, true), (12, true), (4, true), (16, true)],
    );
    fill_all(&mut cache, &[20]);
    expect(
        &rt,
        &cache,
        &[(8, false), (12, true), (4, true), (16, true), (20, true)],
    );
}

#[test]
fn each_set_has_room_of_its_own(rt: HostRuntime) {
    let mut cache = Tlb::new();
    fill_all(&mut cache, &[0, 1, 2, 3, 4, 8, 12, 16, 20, 24]);
    expect(&rt, &cache, &[(0, false), (4, false), (8, false)]);
    expect(
        &rt,
        &cache,
        &[(1, true), (2, true), (3, true), (12, true), (24, true)],
    );
    cache.clear();
    expect(
        &rt,
        &cache,
        &[(1, false), (2, false), (3, false), (12, false), (24, false)],
    );
}

#[test]
fn an_entry_that_forbids_is_a_miss(rt: HostRuntime) {
    let mut cache = Tlb::new();
    cache.fill(5, 7, true, false, false);
    assert_eq!(rt; cache.look(5, Access::Load), Some(7));
    assert_eq!(rt; cache.look(5, Access::Store), None);
    assert_eq!(rt; cache.look(5, Access::Fetch), None);
    // filled in again, it is this entry alone that counts
    cache.fill(5, 8, false, true, true);
    assert_eq!(rt; cache.look(5, Access::Load), None);
    assert_eq!(rt; cache.look(5, Access::Store), Some(8));
    assert_eq!(rt; cache.look(5, Access::Fetch), Some(8));
    // the greatest virtual page number, of set 3
    cache.fill(0xF_FFFF_FFFF_FFFF, 65535, true, true, true);
    assert_eq!(rt; cache.look(0xF_FFFF_FFFF_FFFF, Access::Fetch), Some(65535));
    assert_eq!(rt; cache.look(3, Access::Fetch), None);
}
