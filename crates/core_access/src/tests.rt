//! Values worked out by hand.

ghost use Rattle.std.specs.Prelude.{◌≡◌, true};

use crate::{
    Paging, Route, Space, Touches, access_fault, combine_in, instruction_at, is_aligned, load_from,
    misaligned, owned_since, page_fault, paging_of, place_in, since_in_word, store_in,
};
use mon_types::{Enclave, Mode, Owner, Region, pack_own};
use rv_ext::AmoOp;
use std::test::Fail;
use sv39_pte::Access;

#[test]
fn each_access_has_its_causes(rt: HostRuntime) {
    let table = [
        (Access::Fetch, 0, 1, 12),
        (Access::Load, 4, 5, 13),
        (Access::Store, 6, 7, 15),
    ];
    for (access, odd, denied, missing) in table {
        assert_eq!(rt; misaligned(access), odd, "{access:?}");
        assert_eq!(rt; access_fault(access), denied, "{access:?}");
        assert_eq!(rt; page_fault(access), missing, "{access:?}");
    }
    assert_eq!(rt; is_aligned(0x1004, 4), true);
    assert_eq!(rt; is_aligned(0x1004, 8), false);
    assert_eq!(rt; is_aligned(0x1007, 1), true);
}

#[test]
fn satp_is_bare_or_has_a_root(rt: HostRuntime) {
    assert_eq!(rt; paging_of(0), Paging::Bare);
    let root = 0x8000A;
    assert_eq!(rt; paging_of(0x8000_0000_0008_000A), Paging::Sv39 { root });
    // the greatest root
    let root = 0xFFF_FFFF_FFFF;
    assert_eq!(rt; paging_of(0x8000_0FFF_FFFF_FFFF), Paging::Sv39 { root });
}

#[test]
fn an_enclave_has_its_range_alone(rt: HostRuntime) {
    let mut enclave = Enclave::empty();
    enclave.base = 0x10000;
    enclave.size = 0x3000;
    enclave.root = Some(5);
    let space = Space::of(&enclave);
    let inside = Mode::Inside {
        enclave: 3,
        thread: 1,
    };
    let own = Route {
        paging: Paging::Sv39 { root: 0x80005 },
        owner: Owner::Enclave(3),
    };
    let by_satp = Route {
        paging: Paging::Sv39 { root: 0x8000A },
        owner: Owner::Os,
    };
    let table = [
        (inside, 0xFFFF, by_satp),
        (inside, 0x10000, own),
        (inside, 0x12FFF, own),
        (inside, 0x13000, by_satp),
        (Mode::Os, 0x10000, by_satp),
    ];
    for (mode, va, wanted) in table {
        let got = Route::of(mode, &space, 0x8000_0000_0008_000A, va);
        assert_eq!(rt; got, wanted, "{va:#x} in {mode:?}");
    }
    let bare = Route {
        paging: Paging::Bare,
        owner: Owner::Os,
    };
    assert_eq!(rt; Route::of(inside, &space, 0, 0x13000), bare);
}

#[test]
fn looks_are_good_for_the_owner_alone(rt: HostRuntime) {
    let os = Owner::Os;
    let second = Owner::Enclave(2);
    // a region, its own-word, and since when it is Owned by the OS and by the enclave in slot 2
    let table = [
        (Region::Free, 0, None, None),
        (
            Region::Owned {
                owner: os,
                since: 7,
            },
            449,
            Some(7),
            None,
        ),
        (
            Region::Owned {
                owner: second,
                since: 9,
            },
            589,
            None,
            Some(9),
        ),
        (
            Region::Owned {
                owner: Owner::Enclave(1),
                since: 9,
            },
            585,
            None,
            None,
        ),
        (
            Region::Blocked {
                owner: second,
                since: 9,
                at: 11,
            },
            590,
            None,
            None,
        ),
        (Region::Offered { to: 2, at: 9 }, 591, None, None),
    ];
    for (region, word, by_os, by_second) in table {
        assert_eq!(rt; owned_since(os, &region), by_os, "{region:?}");
        assert_eq!(rt; owned_since(second, &region), by_second, "{region:?}");
        assert_eq!(rt; since_in_word(os, word), by_os, "{word}");
        assert_eq!(rt; since_in_word(second, word), by_second, "{word}");
    }
    let owned = Region::Owned {
        owner: second,
        since: 9,
    };
    assert_eq!(rt; pack_own(&owned), 589);
    // owner 9 and a ticket of 33 bits are in no region's word
    assert_eq!(rt; since_in_word(os, 357), None);
    assert_eq!(rt; since_in_word(os, 0x40_0000_0001), None);
}

#[test]
fn a_period_is_touched_once(rt: HostRuntime) -> Result<(), Fail> {
    let mut touches = Touches::new(rt.alloc())?;
    assert_eq!(rt; touches.add(3, 0), true);
    assert_eq!(rt; touches.add(3, 0), false);
    assert_eq!(rt; touches.has(3, 5), false);
    assert_eq!(rt; touches.has(4, 0), false);
    assert_eq!(rt; touches.add(3, 5), true);
    assert_eq!(rt; touches.add(3, 5), false);
    touches.clear();
    assert_eq!(rt; touches.has(3, 0), false);
    assert_eq!(rt; touches.add(3, 0), true);
    Ok(())
}

#[test]
fn words_of_pages(rt: HostRuntime) {
    assert_eq!(rt; place_in(3, 0x4000_0018), 1539);
    assert_eq!(rt; place_in(0, u64::MAX), 511);
    assert_eq!(rt; place_in(1, 0x7000), 512);
}

#[test]
fn lanes_of_words(rt: HostRuntime) {
    let word = 0x0010_0073_0000_0013;
    assert_eq!(rt; instruction_at(0x8000_0000, word), 0x0000_0013);
    assert_eq!(rt; instruction_at(0x8000_0004, word), 0x0010_0073);
    let word = 0x8877_6655_4433_2211;
    assert_eq!(rt; load_from(word, 0x1007, 1, true), 0xFFFF_FFFF_FFFF_FF88);
    assert_eq!(rt; load_from(word, 0x1006, 2, false), 0x8877);
    assert_eq!(rt; load_from(word, 0x1004, 4, true), 0xFFFF_FFFF_8877_6655);
    assert_eq!(rt; load_from(word, 0x1000, 8, false), word);
    assert_eq!(rt;
        store_in(word, 0x1002, 2, 0xFFFF_AABB),
        0x8877_6655_AABB_2211
    );
    assert_eq!(rt; store_in(word, 0x1000, 8, 77), 77);
}

#[test]
fn words_after_atomics(rt: HostRuntime) {
    let word = 0x0000_0001_FFFF_FFFF;
    // the sum has 32 bits, and the upper half stays
    assert_eq!(rt;
        combine_in(AmoOp::Add, word, 0x1000, 4, 2),
        0x0000_0001_0000_0001
    );
    assert_eq!(rt;
        combine_in(AmoOp::Add, word, 0x1004, 4, 2),
        0x0000_0003_FFFF_FFFF
    );
    assert_eq!(rt;
        combine_in(AmoOp::Add, word, 0x1000, 8, 2),
        0x0000_0002_0000_0001
    );
    // -1 and 3, signed and unsigned
    assert_eq!(rt;
        combine_in(AmoOp::Max, word, 0x1000, 4, 3),
        0x0000_0001_0000_0003
    );
    assert_eq!(rt; combine_in(AmoOp::Maxu, word, 0x1000, 4, 3), word);
    assert_eq!(rt; combine_in(AmoOp::Swap, word, 0x1000, 8, 77), 77);
}
