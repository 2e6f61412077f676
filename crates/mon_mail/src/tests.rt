//! A message on its way, with each record and reply worked out by hand.

use crate::{after_accept, after_read, after_send, decide_accept, decide_read, decide_send};
use mon_types::{Call, Enclave, Mailbox, Reply, Stage};

const DONE: Reply = Reply::Ok {
    count: 0,
    words: [0; 8],
};

const MESSAGE: Mailbox = Mailbox::Full {
    from: 3,
    words: [7, 8, 9, 10],
    measure: [11, 12, 13, 14],
};

const SEND: Call = Call::Send {
    to: 5,
    m: 1,
    w0: 7,
    w1: 8,
    w2: 9,
    w3: 10,
};

/// An enclave that runs, with this measurement.
fn enclave_of(measure: [u64; 4]) -> Enclave {
    Enclave {
        stage: Stage::Initialized,
        measure,
        ..Enclave::empty()
    }
}

#[test]
fn a_message_goes_to_another_enclave(rt: HostRuntime) {
    let sender = enclave_of([11, 12, 13, 14]);
    let mut target = enclave_of([21, 22, 23, 24]);
    assert_eq!(rt; decide_send(3, &target, 1), Reply::InvalidState);
    assert_eq!(rt; decide_accept(), DONE);
    after_accept(1, &Call::Accept { m: 1, from: 3 }, &mut target);
    assert_eq!(rt;
        target.mail,
        [Mailbox::Closed, Mailbox::Expecting { from: 3 }]
    );
    assert_eq!(rt; decide_send(2, &target, 1), Reply::InvalidState);
    assert_eq!(rt; decide_send(3, &target, 0), Reply::InvalidState);
    assert_eq!(rt; decide_read(&target, 1), Reply::InvalidState);
    assert_eq!(rt; decide_send(3, &target, 1), DONE);
    after_send(2, &SEND, 3, Some(&sender), &mut target);
    assert_eq!(rt; target.mail, [Mailbox::Closed, MESSAGE]);
    let read = Reply::Ok {
        count: 8,
        words: [7, 8, 9, 10, 11, 12, 13, 14],
    };
    assert_eq!(rt; decide_read(&target, 1), read);
    after_read(3, &Call::Read { m: 1 }, &mut target);
    assert_eq!(rt; target, enclave_of([21, 22, 23, 24]));
}

#[test]
fn a_message_to_oneself_carries_the_own_measurement(rt: HostRuntime) {
    let mut enclave = enclave_of([11, 12, 13, 14]);
    after_accept(1, &Call::Accept { m: 1, from: 3 }, &mut enclave);
    assert_eq!(rt; decide_send(3, &enclave, 1), DONE);
    after_send(2, &SEND, 3, None, &mut enclave);
    assert_eq!(rt; enclave.mail, [Mailbox::Closed, MESSAGE]);
}
