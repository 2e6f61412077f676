//! Threads on their way, with each record and reply worked out by hand. The measurement is that of
//! Python's `hashlib`.

use crate::{
    after_aex, after_delete_thread, after_enter, after_exit, after_load_thread, after_restore,
    decide_aex, decide_delete_thread, decide_enter, decide_exit, decide_load_thread,
    decide_restore,
};
use mon_types::{Call, Enclave, Reply, Stage, Thread, ThreadState};

const DONE: Reply = Reply::Ok {
    count: 0,
    words: [0; 8],
};

const LOAD: Call = Call::LoadThread {
    e: 2,
    t: 9,
    entry: 65536,
    sp: 80,
};

const READY: ThreadState = ThreadState::Ready { enclave: 2 };

const RUNNING: ThreadState = ThreadState::Running { enclave: 2 };

/// The thread of `LOAD` in this state.
fn thread_in(state: ThreadState) -> Thread {
    Thread {
        state,
        entry: 65536,
        sp: 80,
        ..Thread::empty()
    }
}

/// An enclave at this stage with so many threads.
fn enclave_at(stage: Stage, threads: u8) -> Enclave {
    Enclave {
        stage,
        threads,
        ..Enclave::empty()
    }
}

#[test]
fn a_thread_is_loaded_and_deleted(rt: HostRuntime) {
    let mut enclave = enclave_at(Stage::Loading, 0);
    let mut thread = Thread::empty();
    assert_eq!(rt; decide_load_thread(&enclave, &thread), DONE);
    after_load_thread(1, &LOAD, &mut enclave, &mut thread);
    assert_eq!(rt; thread, thread_in(READY));
    let measured = Enclave {
        measure: [
            0x7cae_62ce_6177_6721,
            0x1c87_8542_9745_4846,
            0x3128_6a18_b9af_6f32,
            0xb2af_7633_a695_f4b6,
        ],
        ..enclave_at(Stage::Loading, 1)
    };
    assert_eq!(rt; enclave, measured);
    assert_eq!(rt; decide_load_thread(&enclave, &thread), Reply::InvalidState);
    assert_eq!(rt; decide_delete_thread(3, &thread), Reply::InvalidState);
    assert_eq!(rt; decide_delete_thread(2, &thread), DONE);
    after_delete_thread(
        2,
        &Call::DeleteThread { e: 2, t: 9 },
        &mut enclave,
        &mut thread,
    );
    assert_eq!(rt; thread, Thread::empty());
    assert_eq!(rt;
        enclave,
        Enclave {
            threads: 0,
            ..measured
        }
    );
}

#[test]
fn a_thread_runs_and_is_restored(rt: HostRuntime) {
    let enclave = enclave_at(Stage::Initialized, 1);
    let enter = Call::Enter { e: 2, t: 9 };
    let mut thread = thread_in(READY);
    assert_eq!(rt; decide_restore(&thread), Reply::InvalidState);
    assert_eq!(rt; decide_enter(2, &enclave, &thread), DONE);
    after_enter(5, &enter, &enclave, &mut thread);
    assert_eq!(rt; thread, thread_in(RUNNING));
    assert_eq!(rt; decide_enter(2, &enclave, &thread), Reply::InvalidState);
    assert_eq!(rt; decide_aex(), DONE);
    after_aex(6, &Call::Aex { saved: [7; 33] }, &mut thread);
    let left = Thread {
        saved_at: 6,
        saved: [7; 33],
        ..thread_in(READY)
    };
    assert_eq!(rt; thread, left);
    after_enter(7, &enter, &enclave, &mut thread);
    let told = Reply::Ok {
        count: 1,
        words: [6, 0, 0, 0, 0, 0, 0, 0],
    };
    assert_eq!(rt; decide_restore(&thread), told);
    after_restore(8, &Call::Restore, &mut thread);
    assert_eq!(rt; thread, thread_in(RUNNING));
    assert_eq!(rt; decide_exit(), DONE);
    after_exit(9, &Call::Exit, &mut thread);
    assert_eq!(rt; thread, thread_in(READY));
}

#[test]
fn records_that_never_come(rt: HostRuntime) {
    let mut enclave = enclave_at(Stage::Loading, 255);
    let mut thread = Thread::empty();
    after_load_thread(1, &LOAD, &mut enclave, &mut thread);
    assert_eq!(rt; enclave.threads, 255);
    enclave.threads = 0;
    after_delete_thread(
        2,
        &Call::DeleteThread { e: 2, t: 9 },
        &mut enclave,
        &mut thread,
    );
    assert_eq!(rt; enclave.threads, 0);
    after_exit(3, &Call::Exit, &mut thread);
    assert_eq!(rt; thread, Thread::empty());
    let mut ready = thread_in(READY);
    after_aex(4, &Call::Aex { saved: [7; 33] }, &mut ready);
    assert_eq!(rt; ready.state, READY);
}
