//! Replies and records worked out by hand, on a machine of 8 regions of one page, so that page p lies in
//! region p. The measurement is that of another program: Python's `hashlib`, over the bytes as its
//! `struct` packs them.

ghost use Rattle.std.specs.Prelude.{◌≡◌, ◌<◌};
ghost use Rattle.mon_types.specs.Shape.{page_total};

use crate::{
    after_create, after_delete, after_init, after_page, after_reserve, after_table, decide_create,
    decide_delete, decide_enclave_info, decide_init, decide_page, decide_reserve, decide_satp,
    decide_table,
};
use mon_types::{Call, Config, Enclave, Owner, Region, Reply, Stage};

const DONE: Reply = Reply::Ok {
    count: 0,
    words: [0; 8],
};

const STATE: Reply = Reply::InvalidState;

/// The pte that leads to a table in page 1.
const TABLE: u64 = (0x80000 + 1) * 1024 + 1;

/// The pte that leads to a page in page 2 that may be read.
const LEAF: u64 = (0x80000 + 2) * 1024 + 0xD3;

/// A pte whose page is one behind DRAM, and one whose page is one before it.
const BEHIND: u64 = (0x80000 + 8) * 1024 + 1;

const BEFORE: u64 = 0x7FFFF * 1024 + 1;

const OF_OS: Region = Region::Owned {
    owner: Owner::Os,
    since: 0,
};

/// A loading enclave of four pages from 0x10000 on, which owns regions 1 to 3 and has its root in
/// page 1.
fn loading() -> Enclave {
    Enclave {
        stage: Stage::Loading,
        base: 0x10000,
        size: 0x4000,
        regions: 0b1110,
        root: Some(1),
        next_page: 2,
        ..Enclave::empty()
    }
}

#[test]
fn slots_decide_alone(rt: HostRuntime) {
    let empty = Enclave::empty();
    let loading = loading();
    let ready = Enclave {
        threads: 1,
        ..loading
    };
    let running = Enclave {
        stage: Stage::Initialized,
        ..ready
    };
    let rootless = Enclave {
        root: None,
        ..ready
    };
    // an enclave, with what create, init and delete answer
    let table = [
        (empty, DONE, STATE, STATE),
        (loading, STATE, STATE, DONE),
        (rootless, STATE, STATE, STATE),
        (ready, STATE, DONE, STATE),
        (running, STATE, STATE, STATE),
    ];
    for (enclave, create, init, delete) in table {
        assert_eq!(rt; decide_create(&enclave), create, "create of {enclave:?}");
        assert_eq!(rt; decide_init(&enclave), init, "init of {enclave:?}");
        assert_eq!(rt; decide_delete(&enclave), delete, "delete of {enclave:?}");
    }
    assert_eq!(rt; decide_satp(), DONE);
}

#[test]
fn enclave_info_tells_eight_words(rt: HostRuntime) {
    let enclave = Enclave {
        measure: [5, 6, 7, 8],
        ..loading()
    };
    let told = Reply::Ok {
        count: 8,
        words: [1, 0x10000, 0x4000, 14, 5, 6, 7, 8],
    };
    assert_eq!(rt; decide_enclave_info(&enclave), told);
}

#[test]
fn tables_are_refused_in_each_way(rt: HostRuntime) {
    let config = Config::plain(1);
    let running = Enclave {
        stage: Stage::Initialized,
        ..loading()
    };
    let rootless = Enclave {
        root: None,
        ..loading()
    };
    // an enclave, a page, an address, a level and the words read so far
    let refused = [
        (running, 2, 0x10000, 1, [0].as_slice()),
        (loading(), 1, 0x10000, 1, [0].as_slice()),
        (loading(), 4, 0x10000, 1, [0].as_slice()),
        (loading(), 2, 0, 2, [].as_slice()),
        (loading(), 2, 0xF000, 1, [0].as_slice()),
        (loading(), 2, 0x14000, 1, [0].as_slice()),
        (rootless, 2, 0x10000, 1, [0].as_slice()),
        (loading(), 2, 0x10000, 1, [TABLE].as_slice()),
        (loading(), 2, 0x10000, 0, [0].as_slice()),
        (loading(), 2, 0x10000, 0, [BEHIND].as_slice()),
        (loading(), 2, 0x10000, 0, [TABLE, TABLE].as_slice()),
    ];
    for (enclave, page, va, level, words) in refused {
        assert!(rt; page < 8);
        assert_eq!(rt;
            decide_table(&config, &enclave, va, level, page, words),
            STATE,
            "{enclave:?} at {va} with {words:?}"
        );
    }
    let made = [
        (rootless, 2, 0, 2, [].as_slice()),
        (loading(), 2, 0x10000, 1, [].as_slice()),
        (loading(), 2, 0x13000, 1, [0].as_slice()),
        (loading(), 3, 0x10000, 0, [TABLE].as_slice()),
        (loading(), 3, 0x10000, 0, [TABLE, 0].as_slice()),
    ];
    for (enclave, page, va, level, words) in made {
        assert!(rt; page < 8);
        assert_eq!(rt;
            decide_table(&config, &enclave, va, level, page, words),
            DONE,
            "{enclave:?} at {va} with {words:?}"
        );
    }
}

#[test]
fn pages_are_refused_in_order(rt: HostRuntime) {
    let config = Config::plain(1);
    let running = Enclave {
        stage: Stage::Initialized,
        ..loading()
    };
    let rootless = Enclave {
        root: None,
        ..loading()
    };
    let others = Region::Owned {
        owner: Owner::Enclave(0),
        since: 1,
    };
    let denied = Reply::AccessDenied;
    let full = [TABLE, TABLE, LEAF];
    // each row is amiss in one place and in the places after it
    let table = [
        (running, 1, 0, others, full.as_slice(), STATE),
        (loading(), 1, 0, others, full.as_slice(), STATE),
        (loading(), 4, 0, others, full.as_slice(), STATE),
        (loading(), 2, 0, others, full.as_slice(), STATE),
        (rootless, 2, 0x10000, others, full.as_slice(), STATE),
        (loading(), 2, 0x10000, others, full.as_slice(), denied),
        (loading(), 2, 0x10000, Region::Free, full.as_slice(), denied),
        (loading(), 2, 0x10000, OF_OS, [0].as_slice(), STATE),
        (
            loading(),
            2,
            0x10000,
            OF_OS,
            [TABLE, BEFORE].as_slice(),
            STATE,
        ),
        (loading(), 2, 0x10000, OF_OS, full.as_slice(), STATE),
        (loading(), 2, 0x10000, OF_OS, [].as_slice(), DONE),
        (
            loading(),
            2,
            0x10000,
            OF_OS,
            [TABLE, TABLE].as_slice(),
            DONE,
        ),
        (
            loading(),
            2,
            0x10000,
            OF_OS,
            [TABLE, TABLE, 0].as_slice(),
            DONE,
        ),
    ];
    for (enclave, page, va, source, words, reply) in table {
        assert!(rt; page < 8);
        assert_eq!(rt;
            decide_page(&config, &enclave, va, page, &source, words),
            reply,
            "{enclave:?} at {va} from {source:?} with {words:?}"
        );
    }
}

#[test]
fn reserves_are_refused_in_each_way(rt: HostRuntime) {
    let config = Config::plain(1);
    let rootless = Enclave {
        root: None,
        ..loading()
    };
    let full = [TABLE, TABLE, LEAF];
    let table = [
        (Enclave::empty(), 4, 0x10000, [].as_slice(), STATE),
        (loading(), 0, 0x10000, [].as_slice(), STATE),
        (loading(), 2, 0x10000, [].as_slice(), STATE),
        (loading(), 4, 0x14000, [].as_slice(), STATE),
        (rootless, 4, 0x10000, [].as_slice(), STATE),
        (loading(), 4, 0x10000, [0].as_slice(), STATE),
        (loading(), 4, 0x10000, full.as_slice(), STATE),
        (loading(), 4, 0x10000, [TABLE].as_slice(), DONE),
        (loading(), 4, 0x10000, [TABLE, TABLE, 0].as_slice(), DONE),
    ];
    for (enclave, page, va, words, reply) in table {
        assert!(rt; page < 8);
        assert_eq!(rt;
            decide_reserve(&config, &enclave, va, page, words),
            reply,
            "{enclave:?} at {va} with {words:?}"
        );
    }
}

/// The call that loads a table of this level for address `va`.
fn load_table(va: u64, level: u64, page: u64) -> Call
    ensures { result ≡ Call.LoadTable 0 va level page }
{
    Call::LoadTable {
        e: 0,
        va,
        level,
        page,
    }
}

#[test]
fn an_enclave_is_measured(rt: HostRuntime) {
    let mut enclave = Enclave::empty();
    let create = Call::Create {
        e: 0,
        base: 0x10000,
        size: 0x4000,
    };
    after_create(1, &create, &mut enclave);
    enclave.regions = 0b1110;
    after_table(2, &load_table(0, 2, 1), &mut enclave);
    after_table(3, &load_table(0x10000, 1, 2), &mut enclave);
    after_table(4, &load_table(0x10000, 0, 3), &mut enclave);
    let page = Call::LoadPage {
        e: 0,
        va: 0x11000,
        page: 4,
        src: 0,
        perms: 5,
    };
    let digest = [
        0, 1, 2, 3, 4, 5, 6, 7, 8, 9, 10, 11, 12, 13, 14, 15, 16, 17, 18, 19, 20, 21, 22, 23, 24,
        25, 26, 27, 28, 29, 30, 31,
    ];
    after_page(5, &page, &mut enclave, &digest);
    let reserve = Call::Reserve {
        e: 0,
        va: 0x12000,
        page: 6,
        perms: 3,
    };
    after_reserve(6, &reserve, &mut enclave);
    after_init(7, &Call::Init { e: 0 }, &mut enclave);
    let wanted = Enclave {
        stage: Stage::Initialized,
        next_page: 7,
        measure: [
            0xd606fc950e429495,
            0x3f5895594a26adcc,
            0x3882551a37ad0d9b,
            0x262b8ac7ba06ea22,
        ],
        ..loading()
    };
    assert_eq!(rt; enclave, wanted);
}

#[test]
fn delete_blocks_regions(rt: HostRuntime) {
    let owner = Owner::Enclave(3);
    let mut enclave = loading();
    let mut regions = [Region::Owned { owner, since: 4 }, Region::Free];
    after_delete(9, &Call::Delete { e: 3 }, &mut enclave, &mut regions);
    let blocked = Region::Blocked {
        owner,
        since: 4,
        at: 9,
    };
    assert_eq!(rt; enclave, Enclave::empty());
    assert_eq!(rt; regions, [blocked, Region::Free]);
}
