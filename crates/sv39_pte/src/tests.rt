//! Ptes put together by hand from the fields of the standard.

ghost use Rattle.std.specs.Prelude.{◌≤◌};

use crate::{Access, Kind, classify, leaf_pte, pointer_pte, pte_place, table_led_to};
use mon_types::{Config, Mode};
use std::process::Abort;

const INSIDE: Mode = Mode::Inside {
    enclave: 1,
    thread: 2,
};

/// A leaf of the frame 0x80003.
fn leaf(store: bool, fetch: bool) -> Kind {
    Kind::Leaf {
        ppn: 0x80003,
        load: true,
        store,
        fetch,
    }
}

/// Checks what a pte is for a load of an enclave.
fn expect(rt: &impl Abort, pte: u64, level: u8, kind: Kind)
    requires { level ≤ 2 }
{
    let found = classify(pte, level, Access::Load, INSIDE);
    assert_eq!(rt; found, kind, "{pte:#x} at level {level}");
}

#[test]
fn pointers(rt: HostRuntime) {
    // V alone, but not at level 0, and not with U, A or D
    expect(&rt, 0x2000_0C01, 2, Kind::Pointer { ppn: 0x80003 });
    expect(&rt, 0x2000_0C01, 0, Kind::Fault);
    expect(&rt, 0x2000_0C11, 1, Kind::Fault);
    expect(&rt, 0x2000_0C41, 1, Kind::Fault);
    expect(&rt, 0x2000_0C81, 1, Kind::Fault);
}

#[test]
fn leaves(rt: HostRuntime) {
    // D, A, U, W, R and V; then without V, W in place of R and W, without U, and without A
    expect(&rt, 0x2000_0CD7, 0, leaf(true, false));
    expect(&rt, 0x2000_0CD6, 0, Kind::Fault);
    expect(&rt, 0x2000_0CD5, 0, Kind::Fault);
    expect(&rt, 0x2000_0CC7, 0, Kind::Fault);
    expect(&rt, 0x2000_0C97, 0, Kind::Fault);
    // without D nothing is stored
    expect(&rt, 0x2000_0C57, 0, leaf(false, false));
    // X alone is not read
    expect(&rt, 0x2000_0CD9, 0, Kind::Fault);
    // bits 63 and 54, and the two of software
    expect(&rt, 0x8000_0000_2000_0CD7, 0, Kind::Fault);
    expect(&rt, 0x0040_0000_2000_0CD7, 0, Kind::Fault);
    expect(&rt, 0x2000_0FD7, 0, leaf(true, false));
    // a leaf of 2 MiB begins at a multiple of its size
    expect(&rt, 0x2000_0CD7, 1, Kind::Fault);
}

#[test]
fn accesses(rt: HostRuntime) {
    // R, W and X of S mode, and R and X of U mode
    let of_os = 0x2000_0CCF;
    let of_enclave = 0x2000_0CDB;
    assert_eq!(rt;
        classify(of_os, 0, Access::Fetch, Mode::Os),
        leaf(true, true)
    );
    assert_eq!(rt; classify(of_os, 0, Access::Store, INSIDE), Kind::Fault);
    assert_eq!(rt;
        classify(of_enclave, 0, Access::Fetch, INSIDE),
        leaf(false, true)
    );
    assert_eq!(rt; classify(of_enclave, 0, Access::Store, INSIDE), Kind::Fault);
    assert_eq!(rt;
        classify(of_enclave, 0, Access::Load, Mode::Os),
        Kind::Fault
    );
}

#[test]
fn ptes_of_the_monitor(rt: HostRuntime) {
    let config = Config::plain(1);
    assert_eq!(rt; pointer_pte(3), 0x2000_0C01);
    assert_eq!(rt; leaf_pte(3, 5), 0x2000_0CDB);
    assert_eq!(rt; table_led_to(&config, 0x2000_0C01), Some(3));
    assert_eq!(rt; table_led_to(&config, 0x2000_2001), None);
    assert_eq!(rt; table_led_to(&config, 0), None);
    // 3 * 2^30 + 5 * 2^21 + 7 * 2^12
    let va = 0xC0A0_7000;
    assert_eq!(rt; pte_place(2, 2, va), 1027);
    assert_eq!(rt; pte_place(2, 1, va), 1029);
    assert_eq!(rt; pte_place(2, 0, va), 1031);
}
