//! Plans worked out by hand, on the plain machine with two cores.

use crate::{Held, next, refuse_early};
use mon_types::{Call, Config, Enclave, Mode, ObjectId, Owner, Region, Reply, Thread};
use std::process::Abort;

const INSIDE: Mode = Mode::Inside {
    enclave: 3,
    thread: 5,
};

/// Compares what a call by core 1 tries with these objects, where every region and every enclave slot
/// has this record.
fn expect(
    rt: &impl Abort,
    mode: Mode,
    call: &Call,
    region: Region,
    enclave: &Enclave,
    objects: &[ObjectId],
) {
    let config = Config::plain(2);
    assert_eq!(rt; refuse_early(&config, mode, call), None, "{call:?}");
    let mut held = Held::new();
    for object in objects {
        assert_eq!(rt;
            next(&config, 1, mode, call, &held),
            Some(*object),
            "{call:?}"
        );
        match *object {
            ObjectId::Enclave(e) => assert!(rt; held.enclaves.try_push((e, *enclave)).is_ok()),
            ObjectId::Thread(t) => assert!(rt; held.threads.try_push((t, Thread::empty())).is_ok()),
            ObjectId::Region(r) => assert!(rt; held.regions.try_push((r, region)).is_ok()),
            ObjectId::Cell(c) => assert!(rt; held.cells.try_push((c, 0)).is_ok()),
        }
    }
    assert_eq!(rt; held.count(), objects.len(), "{call:?}");
    assert_eq!(rt; next(&config, 1, mode, call, &held), None, "{call:?}");
}

#[test]
fn free_tries_cells_of_a_blocked_region(rt: HostRuntime) {
    let free = Call::Free { r: 3 };
    let blocked = Region::Blocked {
        owner: Owner::Os,
        since: 0,
        at: 4,
    };
    let all = [ObjectId::Region(3), ObjectId::Cell(0), ObjectId::Cell(1)];
    expect(&rt, Mode::Os, &free, blocked, &Enclave::empty(), &all);
    let region = [ObjectId::Region(3)];
    expect(
        &rt,
        Mode::Os,
        &free,
        Region::Free,
        &Enclave::empty(),
        &region,
    );
    let cell = [ObjectId::Cell(1)];
    expect(
        &rt,
        Mode::Os,
        &Call::Flush,
        Region::Free,
        &Enclave::empty(),
        &cell,
    );
}

#[test]
fn delete_tries_the_set(rt: HostRuntime) {
    let mut enclave = Enclave::empty();
    enclave.regions = 0b10100100;
    let all = [
        ObjectId::Enclave(6),
        ObjectId::Region(2),
        ObjectId::Region(5),
        ObjectId::Region(7),
    ];
    expect(
        &rt,
        Mode::Os,
        &Call::Delete { e: 6 },
        Region::Free,
        &enclave,
        &all,
    );
}

#[test]
fn slots_come_first(rt: HostRuntime) {
    let (free, empty) = (Region::Free, Enclave::empty());
    let load = Call::LoadPage {
        e: 2,
        va: 0,
        page: 1,
        src: 4,
        perms: 1,
    };
    let objects = [ObjectId::Enclave(2), ObjectId::Region(4)];
    expect(&rt, Mode::Os, &load, free, &empty, &objects);
    let enter = Call::Enter { e: 7, t: 15 };
    let objects = [ObjectId::Enclave(7), ObjectId::Thread(15)];
    expect(&rt, Mode::Os, &enter, free, &empty, &objects);
    let objects = [ObjectId::Enclave(3), ObjectId::Region(1)];
    expect(&rt, INSIDE, &Call::Block { r: 1 }, free, &empty, &objects);
    expect(
        &rt,
        INSIDE,
        &Call::Exit,
        free,
        &empty,
        &[ObjectId::Thread(5)],
    );
}

#[test]
fn send_tries_the_lower_first(rt: HostRuntime) {
    let slots = [
        ObjectId::Enclave(1),
        ObjectId::Enclave(3),
        ObjectId::Enclave(6),
    ];
    for (to, objects) in [(1, &slots[..2]), (3, &slots[1..2]), (6, &slots[1..])] {
        let send = Call::Send {
            to,
            m: 0,
            w0: 1,
            w1: 2,
            w2: 3,
            w3: 4,
        };
        expect(&rt, INSIDE, &send, Region::Free, &Enclave::empty(), objects);
    }
}

#[test]
fn refusals_in_order(rt: HostRuntime) {
    let config = Config::plain(1);
    let unknown = Call::Unknown {
        number: 24,
        args: [0; 6],
    };
    let accept = Call::Accept { m: 9, from: 9 };
    let refusals = [
        (INSIDE, unknown, Some(Reply::Unsupported)),
        (Mode::Os, accept, Some(Reply::AccessDenied)),
        (INSIDE, accept, Some(Reply::InvalidValue)),
        (INSIDE, Call::Accept { m: 1, from: 7 }, None),
    ];
    for (mode, call, refusal) in refusals {
        assert_eq!(rt; refuse_early(&config, mode, &call), refusal, "{call:?}");
    }
}
