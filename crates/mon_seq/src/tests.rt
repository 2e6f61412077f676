//! Concrete calls, with what they answer and try worked out by hand.

ghost use Rattle.std.specs.Prelude.{◌≡◌, ◌<◌, ◌+◌, ◌-◌, ◌^◌, length};

use crate::{Monitor, Turn, take_turns};
use mon_types::{Call, Config, Enclave, Mode, OS_WORD, Owner, Region, Reply, Thread, Tried};
use std::process::Abort;
use std::test::Fail;

const NO_DIGEST: [u8; 32] = [0; 32];

const DONE: Reply = Reply::Ok {
    count: 0,
    words: [0; 8],
};

/// These regions and cells, as sets of bits, and no other objects.
fn tried(regions: u64, cells: u16) -> Tried {
    Tried {
        enclaves: 0,
        threads: 0,
        regions,
        cells,
    }
}

/// Makes a call on core 0, and compares what it answers and tries.
fn expect(rt: &impl Abort, monitor: &mut Monitor, call: Call, reply: Reply, objects: Tried)
    requires core { 0 < monitor.old.state.shape.cores }
    requires ticket { monitor.old.ticket < 2 ^ 32 - 1 }
    ensures machine { monitor.new.state.shape ≡ monitor.old.state.shape }
    ensures ticket { monitor.new.ticket ≡ monitor.old.ticket + 1 }
{
    assert_eq!(rt; monitor.tries(0, &call), objects, "tried by {call:?}");
    assert_eq!(rt;
        monitor.call(0, &call, &NO_DIGEST),
        reply,
        "reply to {call:?}"
    );
}

/// Makes calls on core 0 that are all answered by Ok with no words.
fn all_done(rt: &impl Abort, monitor: &mut Monitor, calls: &[Call])
    requires core { 0 < monitor.old.state.shape.cores }
    requires ticket { monitor.old.ticket + length calls.now < 2 ^ 32 }
    ensures machine { monitor.new.state.shape ≡ monitor.old.state.shape }
    ensures ticket { monitor.new.ticket ≡ monitor.old.ticket + length calls.now }
{
    for call in calls {
        assert_eq!(rt;
            monitor.call(0, call, &NO_DIGEST),
            DONE,
            "reply to {call:?}"
        );
    }
}

/// The enclave in slot 0 and these regions, as sets of bits.
fn slot_0_and(regions: u64) -> Tried {
    Tried {
        enclaves: 1,
        ..tried(regions, 0)
    }
}

/// A small enclave in slot 0: the OS gives it regions 2 to 5 of one page each, loads three tables, a
/// copy of page 1 and a thread, and ends the loading at ticket 20.
const SMALL: [Call; 20] = [
    Call::Block { r: 2 },
    Call::Block { r: 3 },
    Call::Block { r: 4 },
    Call::Block { r: 5 },
    Call::Flush,
    Call::Free { r: 2 },
    Call::Free { r: 3 },
    Call::Free { r: 4 },
    Call::Free { r: 5 },
    Call::Create {
        e: 0,
        base: 65536,
        size: 16384,
    },
    Call::Assign { r: 2, to: 0 },
    Call::Assign { r: 3, to: 0 },
    Call::Assign { r: 4, to: 0 },
    Call::Assign { r: 5, to: 0 },
    Call::LoadTable {
        e: 0,
        va: 0,
        level: 2,
        page: 2,
    },
    Call::LoadTable {
        e: 0,
        va: 65536,
        level: 1,
        page: 3,
    },
    Call::LoadTable {
        e: 0,
        va: 65536,
        level: 0,
        page: 4,
    },
    Call::LoadPage {
        e: 0,
        va: 65536,
        page: 5,
        src: 1,
        perms: 5,
    },
    Call::LoadThread {
        e: 0,
        t: 0,
        entry: 65536,
        sp: 0,
    },
    Call::Init { e: 0 },
];

/// Its measurement, where the digest of its page is all zeros, as hashed apart from this program.
const MEASURE: [u64; 4] = [
    0x4164_91ec_1596_af0d,
    0xf84e_c9e6_b602_cc05,
    0x1d6e_d57e_1250_d262,
    0x23f3_3b11_0b56_a4e2,
];

/// Takes region 12 back from the OS: tickets 21 to 23.
const TAKEN: [Call; 3] = [Call::Block { r: 12 }, Call::Flush, Call::Free { r: 12 }];

/// Enters the enclave, which writes to itself: tickets 21 to 23.
const WRITTEN: [Call; 3] = [
    Call::Enter { e: 0, t: 0 },
    Call::Accept { m: 0, from: 0 },
    Call::Send {
        to: 0,
        m: 0,
        w0: 7,
        w1: 8,
        w2: 9,
        w3: 10,
    },
];

/// Leaves the enclave and deletes it: tickets 25 to 27.
const DELETED: [Call; 3] = [
    Call::Exit,
    Call::DeleteThread { e: 0, t: 0 },
    Call::Delete { e: 0 },
];

#[test]
fn enclave_writes_to_itself_and_goes(rt: HostRuntime) -> Result<(), Fail> {
    let config = Config::new(1, 16, 1, 0).ok_or("no such machine")?;
    let mut monitor = Monitor::new(rt.alloc(), config)?;
    let m = &mut monitor;
    let [m0, m1, m2, m3] = MEASURE;
    let message = Reply::Ok {
        count: 8,
        words: [7, 8, 9, 10, m0, m1, m2, m3],
    };
    all_done(&rt, m, &SMALL);
    all_done(&rt, m, &WRITTEN);
    expect(&rt, m, Call::Read { m: 0 }, message, slot_0_and(0));
    all_done(&rt, m, &DELETED);
    let blocked = Region::Blocked {
        owner: Owner::Enclave(0),
        since: 12,
        at: 27,
    };
    assert_eq!(rt; monitor.regions()[3], blocked);
    assert_eq!(rt; monitor.enclaves()[0], Enclave::empty());
    assert_eq!(rt; monitor.threads()[0], Thread::empty());
    assert_eq!(rt; monitor.modes(), [Mode::Os].as_slice());
    Ok(())
}

#[test]
fn offer_is_accepted_once(rt: HostRuntime) -> Result<(), Fail> {
    let config = Config::new(1, 16, 1, 0).ok_or("no such machine")?;
    let mut monitor = Monitor::new(rt.alloc(), config)?;
    let m = &mut monitor;
    let offered = Reply::Ok {
        count: 4,
        words: [3, 0, 0, 24, 0, 0, 0, 0],
    };
    let [m0, m1, m2, m3] = MEASURE;
    let info = Reply::Ok {
        count: 8,
        words: [2, 65536, 16384, 4156, m0, m1, m2, m3],
    };
    let both = slot_0_and(4096);
    let accept = Call::AcceptRegion { r: 12 };
    all_done(&rt, m, &SMALL);
    all_done(&rt, m, &TAKEN);
    expect(&rt, m, Call::Assign { r: 12, to: 0 }, DONE, both);
    expect(&rt, m, Call::RegionInfo { r: 12 }, offered, tried(4096, 0));
    all_done(&rt, m, &[Call::Enter { e: 0, t: 0 }]);
    expect(&rt, m, accept, DONE, both);
    expect(&rt, m, accept, Reply::InvalidState, both);
    all_done(&rt, m, &[Call::Exit]);
    expect(&rt, m, Call::EnclaveInfo { e: 0 }, info, slot_0_and(0));
    let owned = Region::Owned {
        owner: Owner::Enclave(0),
        since: 27,
    };
    assert_eq!(rt; monitor.regions()[12], owned);
    Ok(())
}

#[test]
fn offer_is_withdrawn(rt: HostRuntime) -> Result<(), Fail> {
    let config = Config::new(1, 16, 1, 0).ok_or("no such machine")?;
    let mut monitor = Monitor::new(rt.alloc(), config)?;
    let m = &mut monitor;
    all_done(&rt, m, &SMALL);
    all_done(&rt, m, &TAKEN);
    all_done(&rt, m, &[Call::Assign { r: 12, to: 0 }]);
    expect(&rt, m, Call::Block { r: 12 }, DONE, tried(4096, 0));
    expect(
        &rt,
        m,
        Call::Free { r: 12 },
        Reply::NotFlushed,
        tried(4096, 1),
    );
    let blocked = Region::Blocked {
        owner: Owner::Enclave(0),
        since: 24,
        at: 25,
    };
    assert_eq!(rt; monitor.regions()[12], blocked);
    Ok(())
}

#[test]
fn region_three_goes_round(rt: HostRuntime) -> Result<(), Fail> {
    let config = Config::new(1, 8, 1, 0).ok_or("no such machine")?;
    let mut monitor = Monitor::new(rt.alloc(), config)?;
    let m = &mut monitor;
    expect(&rt, m, Call::Block { r: 3 }, DONE, tried(8, 0));
    expect(&rt, m, Call::Free { r: 3 }, Reply::NotFlushed, tried(8, 1));
    expect(&rt, m, Call::Flush, DONE, tried(0, 1));
    expect(&rt, m, Call::Free { r: 3 }, DONE, tried(8, 1));
    expect(
        &rt,
        m,
        Call::Assign { r: 3, to: OS_WORD },
        DONE,
        tried(8, 0),
    );
    assert_eq!(rt; monitor.flushed(), [3].as_slice());
    let owned = Region::Owned {
        owner: Owner::Os,
        since: 5,
    };
    assert_eq!(rt; monitor.regions()[3], owned);
    assert_eq!(rt; monitor.modes(), [Mode::Os].as_slice());
    Ok(())
}

#[test]
fn refusals_change_nothing(rt: HostRuntime) -> Result<(), Fail> {
    let config = Config::new(1, 8, 1, 0).ok_or("no such machine")?;
    let mut monitor = Monitor::new(rt.alloc(), config)?;
    let m = &mut monitor;
    let slot_and_region = Tried {
        enclaves: 4,
        ..tried(8, 0)
    };
    let info = Reply::Ok {
        count: 4,
        words: [1, OS_WORD, 0, 0, 0, 0, 0, 0],
    };
    expect(
        &rt,
        m,
        Call::Block { r: 0 },
        Reply::InvalidValue,
        tried(0, 0),
    );
    expect(
        &rt,
        m,
        Call::Block { r: 64 },
        Reply::InvalidValue,
        tried(0, 0),
    );
    expect(
        &rt,
        m,
        Call::Free { r: 3 },
        Reply::InvalidState,
        tried(8, 0),
    );
    expect(
        &rt,
        m,
        Call::Assign { r: 3, to: 2 },
        Reply::InvalidState,
        slot_and_region,
    );
    expect(&rt, m, Call::RegionInfo { r: 3 }, info, tried(8, 0));
    let tables = monitor.into_tables();
    let owned = Region::Owned {
        owner: Owner::Os,
        since: 0,
    };
    assert_eq!(rt; tables.regions.as_slice(), [owned; 8].as_slice());
    assert_eq!(rt;
        tables.enclaves.as_slice(),
        [Enclave::empty(); 8].as_slice()
    );
    assert_eq!(rt; tables.threads.as_slice(), [Thread::empty(); 16].as_slice());
    assert_eq!(rt; tables.flushed.as_slice(), [0].as_slice());
    assert_eq!(rt; tables.modes.as_slice(), [Mode::Os].as_slice());
    Ok(())
}

/// The second turn has ticket 2, whatever the first was.
#[test]
fn skip_spends_a_ticket(rt: HostRuntime) -> Result<(), Fail> {
    let config = Config::new(2, 8, 1, 0).ok_or("no such machine")?;
    let mut monitor = Monitor::new(rt.alloc(), config)?;
    let flush = Turn::Call {
        core: 1,
        call: Call::Flush,
        digest: NO_DIGEST,
    };
    take_turns(&mut monitor, &[Turn::Skip, flush]);
    assert_eq!(rt; monitor.flushed(), [0, 2].as_slice());
    assert_eq!(rt; monitor.enclaves().len(), 8);
    assert_eq!(rt; monitor.threads().len(), 16);
    Ok(())
}
