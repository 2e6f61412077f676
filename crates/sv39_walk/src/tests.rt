//! Walks worked out by hand. Their tables are on the pages 0x80002, 0x80003 and 0x80004.

ghost use Rattle.std.specs.Prelude.{◌<◌, ◌^◌};

use crate::{Walk, WalkState};
use mon_types::Mode;
use std::process::Abort;
use sv39_pte::Access;

const INSIDE: Mode = Mode::Inside {
    enclave: 1,
    thread: 2,
};

/// Indexes 3, 5 and 7, and byte 0x123 of the page: 3 * 2^30 + 5 * 2^21 + 7 * 2^12 + 0x123.
const VA: u64 = 0xC0A0_7123;

/// Where its ptes are asked for at levels 2, 1 and 0.
const PLACES: [u64; 3] = [0x8000_2018, 0x8000_3028, 0x8000_4038];

/// The ptes that lead to the pages 0x80003 and 0x80004.
const POINTERS: [u64; 2] = [0x2000_0C01, 0x2000_1001];

fn found(page: u64, store: bool, fetch: bool) -> WalkState {
    WalkState::Found {
        page,
        load: true,
        store,
        fetch,
    }
}

/// Checks that a walk asks for the pte at an address, and answers it.
fn answer(rt: &impl Abort, walk: &mut Walk, place: u64, pte: u64) {
    match walk.state() {
        WalkState::Wish { address } => assert_eq!(rt; address, place, "where {pte:#x} stands"),
        state => panic!(rt; "{state:?} in place of a wish at {place:#x}"),
    }
    walk.answer(pte);
}

/// Checks where a load of the OS of this address stands after the ptes at these places.
fn expect(rt: &impl Abort, root: u64, va: u64, ptes: &[(u64, u64)], state: WalkState)
    requires { root < 2 ^ 44 }
{
    let mut walk = Walk::begin(root, va, Access::Load, Mode::Os);
    for (place, pte) in ptes {
        answer(rt, &mut walk, *place, *pte);
    }
    assert_eq!(rt; walk.state(), state, "at {va:#x}");
}

/// The walk of an access to VA down to this level.
fn down_to(rt: &impl Abort, level: usize, access: Access, mode: Mode) -> Walk {
    let mut walk = Walk::begin(0x80002, VA, access, mode);
    for (place, pte) in PLACES.iter().zip(POINTERS).take(2 - level.min(2)) {
        answer(rt, &mut walk, *place, pte);
    }
    walk
}

/// Checks what a pte makes of a walk of VA at this level.
fn expect_at(
    rt: &impl Abort,
    level: usize,
    access: Access,
    mode: Mode,
    pte: u64,
    state: WalkState,
) {
    let mut walk = down_to(rt, level, access, mode);
    let place = PLACES.get(2 - level.min(2)).copied().unwrap_or(0);
    answer(rt, &mut walk, place, pte);
    assert_eq!(rt; walk.state(), state, "{pte:#x} at level {level}");
}

#[test]
fn three_levels(rt: HostRuntime) {
    // the page 0x80005 with D, A, W, R and V
    for access in [Access::Load, Access::Store] {
        let state = found(0x80005, true, false);
        expect_at(&rt, 0, access, Mode::Os, 0x2000_14C7, state);
    }
    // with D, A, U, X, R and V
    let state = found(0x80005, false, true);
    expect_at(&rt, 0, Access::Fetch, INSIDE, 0x2000_14DB, state);
}

#[test]
fn large_leaves(rt: HostRuntime) {
    // 2 MiB from page 0x80000 on, and the address's page 7 of them
    let state = found(0x80007, true, false);
    expect_at(&rt, 1, Access::Load, Mode::Os, 0x2000_00C7, state);
    // 1 GiB, and page 5 * 512 + 7
    let state = found(0x80A07, true, false);
    expect_at(&rt, 2, Access::Load, Mode::Os, 0x2000_00C7, state);
    // page 0x80003 is no multiple of 512, and 0x80200 none of 512 * 512
    for (level, pte) in [(1, 0x2000_0CC7), (2, 0x2008_00C7)] {
        expect_at(
            &rt,
            level,
            Access::Load,
            Mode::Os,
            pte,
            WalkState::PageFault,
        );
    }
}

#[test]
fn each_rule_at_each_level(rt: HostRuntime) {
    let bad = [
        // without V; W in place of R and W; bits 54 and 63
        (Access::Load, Mode::Os, 0xC6),
        (Access::Load, Mode::Os, 0xC5),
        (Access::Load, Mode::Os, 0x0040_0000_0000_00C7),
        (Access::Load, Mode::Os, 0x8000_0000_0000_00C7),
        // pointers with A, D and U
        (Access::Load, Mode::Os, 0x41),
        (Access::Load, Mode::Os, 0x81),
        (Access::Load, Mode::Os, 0x11),
        // U = 1 for the OS, and U = 0 in an enclave
        (Access::Load, Mode::Os, 0xD7),
        (Access::Load, INSIDE, 0xC7),
        // no X, R or W for a fetch, a load or a store
        (Access::Fetch, Mode::Os, 0xC7),
        (Access::Load, Mode::Os, 0xC9),
        (Access::Store, Mode::Os, 0xC3),
        // without A, and without D for a store
        (Access::Load, Mode::Os, 0x87),
        (Access::Store, Mode::Os, 0x47),
    ];
    for level in 0..3 {
        for (access, mode, pte) in bad {
            expect_at(&rt, level, access, mode, pte, WalkState::PageFault);
        }
    }
    // a pointer at level 0
    expect_at(&rt, 0, Access::Load, Mode::Os, 1, WalkState::PageFault);
}

#[test]
fn addresses_without_a_page(rt: HostRuntime) {
    let table = [
        // bits 63 to 38 all 0, and all 1: indexes 255 and 256
        (
            0x3F_FFFF_F000,
            WalkState::Wish {
                address: 0x8000_27F8,
            },
        ),
        (
            0xFFFF_FFC0_0000_0000,
            WalkState::Wish {
                address: 0x8000_2800,
            },
        ),
        // bit 38 alone, bit 39 alone, all but bit 38, and all but bit 63
        (0x40_0000_0000, WalkState::PageFault),
        (0x80_0000_0000, WalkState::PageFault),
        (0xFFFF_FF80_0000_0000, WalkState::PageFault),
        (0x7FFF_FFC0_0000_0000, WalkState::PageFault),
    ];
    for (va, state) in table {
        expect(&rt, 0x80002, va, &[], state);
    }
}

#[test]
fn an_entry_that_leads_to_its_own_table(rt: HostRuntime) {
    let place = 0x8000_A010;
    let own = (place, 0x2000_2801);
    let va = 0x8040_2000;
    expect(&rt, 0x8000A, va, &[own, own, own], WalkState::PageFault);
    // changed by another core after level 2, to a leaf of 2 MiB: the address has page 2 of it
    let changed = (place, 0x2000_00CF);
    expect(
        &rt,
        0x8000A,
        va,
        &[own, changed],
        found(0x80002, true, true),
    );
}

#[test]
fn a_table_past_memory(rt: HostRuntime) {
    // the walk asks there all the same; whether there is memory is not its concern
    let entry = (0x8000_A010, 0x2000_4001);
    let state = WalkState::Wish {
        address: 0x8001_0000,
    };
    expect(&rt, 0x8000A, 0x8000_0000, &[entry], state);
    // the greatest page frame number
    let last = (0xFF_FFFF_FFFF_F010, 0x3F_FFFF_FFFF_FC01);
    let state = WalkState::Wish {
        address: 0xFF_FFFF_FFFF_F008,
    };
    expect(&rt, 0xFFF_FFFF_FFFF, 0x8020_0000, &[last], state);
}
