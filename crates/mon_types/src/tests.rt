//! Rows, words and numbers worked out by hand.

use crate::{
    Call, Config, Enclave, Mailbox, ObjectId, Owner, Region, Stage, Thread, ThreadState, cell_of,
    enclave_of, enclave_words, pack_at, pack_lock, pack_own, thread_of, thread_words, unpack_lock,
    unpack_own,
};
use std::process::Abort;
use std::test::Fail;

/// Checks what these two words of a region's table give.
fn check_own(rt: &impl Abort, word: u64, at: u64, want: Option<Region>) {
    assert_eq!(rt; unpack_own(word, at), want, "at {word}");
}

/// Checks that a word is no lock's.
fn check_no_lock(rt: &impl Abort, word: u64) {
    assert_eq!(rt; unpack_lock(word), None, "at {word}");
}

/// Checks that a number of which no call is known makes the call that has it and the arguments.
fn check_unknown(rt: &impl Abort, number: u64, args: [u64; 6]) {
    assert_eq!(rt;
        Call::of_registers(number, args),
        Call::Unknown { number, args }
    );
}

#[test]
fn locks_and_objects(rt: HostRuntime) {
    assert_eq!(rt; pack_lock(3, 7), 231);
    assert_eq!(rt; unpack_lock(231), Some((3, 7)));
    for word in [0, 230, 137438953473] {
        check_no_lock(&rt, word);
    }
    assert_eq!(rt; ObjectId::Region(5).number(), 69);
    assert_eq!(rt; ObjectId::Cell(15).number(), 143);
}

#[test]
fn largest_machine(rt: HostRuntime) -> Result<(), Fail> {
    let config = Config::new(16, 64, 16, 2).ok_or("within the limits")?;
    assert_eq!(rt; config.total_pages(), 1024);
    assert_eq!(rt; config.region_of(9), 2);
    assert_eq!(rt; Config::new(17, 64, 16, 2), None);
    Ok(())
}

#[test]
fn rows_of_regions(rt: HostRuntime) {
    let owner = Owner::Enclave(2);
    let owned = Region::Owned { owner, since: 5 };
    let blocked = Region::Blocked {
        owner: Owner::Os,
        since: 0,
        at: 9,
    };
    let offered = Region::Offered { to: 7, at: 6 };
    for (region, word, at) in [
        (Region::Free, 0, 0),
        (owned, 333, 0),
        (blocked, 2, 9),
        (offered, 419, 0),
    ] {
        check_own(&rt, word, at, Some(region));
    }
    assert_eq!(rt; pack_own(&owned), 333);
    assert_eq!(rt; pack_at(&blocked), 9);
    for (word, at) in [(4, 0), (64, 0), (333, 1), (3, 0), (37, 0), (2, 4294967296)] {
        check_own(&rt, word, at, None);
    }
}

#[test]
fn rows_of_slots(rt: HostRuntime) {
    let mut enclave = Enclave::empty();
    enclave.stage = Stage::Initialized;
    enclave.root = Some(8);
    enclave.mail[1] = Mailbox::Full {
        from: 3,
        words: [21, 22, 23, 24],
        measure: [31, 32, 33, 34],
    };
    let mut row = [0; 29];
    row[0] = 2;
    row[4] = 9;
    row[20..].copy_from_slice(&[12, 21, 22, 23, 24, 31, 32, 33, 34]);
    assert_eq!(rt; enclave_words(&enclave), row);
    assert_eq!(rt; enclave_of(&row), enclave);
    row[11] = 17;
    assert_eq!(rt; enclave_of(&row), Enclave::empty());

    let mut thread = Thread::empty();
    thread.state = ThreadState::Running { enclave: 7 };
    thread.saved_at = 40;
    thread.saved[32] = 8;
    let mut row = [0; 37];
    row[0] = 16;
    row[3] = 40;
    row[36] = 8;
    assert_eq!(rt; thread_words(&thread), row);
    assert_eq!(rt; thread_of(&row), thread);
    row[3] = 4294967296;
    assert_eq!(rt; thread_of(&row), Thread::empty());
}

#[test]
fn words_past_the_end(rt: HostRuntime) {
    let mut enclave = Enclave::empty();
    enclave.regions = 1 + 128 + 256;
    enclave.root = Some(8);
    let small = enclave.within(&Config::plain(1));
    assert_eq!(rt; small.regions, 129);
    assert_eq!(rt; small.root, None);
    assert_eq!(rt; cell_of(7), 7);
    assert_eq!(rt; cell_of(4294967296), 0);
}

#[test]
fn calls_of_registers(rt: HostRuntime) {
    let args = [1, 2, 3, 4, 5, 6];
    assert_eq!(rt; Call::of_registers(1, args), Call::Block { r: 1 });
    for number in [0, 15, 24] {
        check_unknown(&rt, number, args);
    }
    assert_eq!(rt; Call::of_registers(16, args).name(), "restore");
    assert_eq!(rt; Call::of_registers(23, args).number(), 23);
}
