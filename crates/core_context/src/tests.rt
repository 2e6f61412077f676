//! Registers worked out by hand.

use crate::{After, Context, Contexts, Leaving};
use mon_types::{Call, Enclave, ObjectId, Reply, Start, TICK_CAUSE, Thread};

#[test]
fn a_tick_gives_the_os_its_registers_back(rt: HostRuntime) {
    let start = Start { pc: 64, sp: 128 };
    let mut contexts = Contexts::begin(3, &start);
    assert_eq!(rt;
        (contexts.current.regs[2], contexts.current.regs[10]),
        (128, 3)
    );
    contexts.current.set(9, 77);
    let mut thread = Thread::empty();
    thread.entry = 4096;
    thread.sp = 8192;
    thread.saved_at = 5;
    contexts.change(&After::entering(&Enclave::empty(), &thread), Leaving::Exit);
    let inside = contexts.current;
    assert_eq!(rt;
        (inside.pc, inside.regs[2], inside.regs[9], inside.regs[10]),
        (4096, 8192, 0, 1)
    );
    let cause = TICK_CAUSE;
    let saved = inside.save(cause);
    assert_eq!(rt; (saved[0], saved[2], saved[32]), (4096, 8192, cause));
    contexts.change(&After::Left, Leaving::Aex { cause, value: 0 });
    let os = contexts.current;
    assert_eq!(rt; (os.pc, os.regs[2], os.regs[9]), (64, 128, 77));
    assert_eq!(rt;
        (os.regs[10], os.regs[11], os.regs[12], os.regs[13]),
        (0, 1, cause, 0)
    );
    assert_eq!(rt; Context::restore(&saved), inside);
}

/// A guest at an ECALL at `pc`: register x holds 100 + x.
fn guest(pc: u64) -> Context {
    let mut context = Context {
        pc,
        regs: [100; 32],
    };
    context.regs[0] = 0;
    for x in 1..32 {
        context.set(x, 100 + u64::from(x));
    }
    context
}

#[test]
fn a_call_is_asked_for_by_x17_and_x10_to_x15(rt: HostRuntime) {
    let mut context = guest(64);
    context.set(17, 13);
    assert_eq!(rt; context.asked_call(), Call::Enter { e: 110, t: 111 });
    context.set(17, 18);
    let send = Call::Send {
        to: 110,
        m: 111,
        w0: 112,
        w1: 113,
        w2: 114,
        w3: 115,
    };
    assert_eq!(rt; context.asked_call(), send);
    // Only the machine makes an aex.
    context.set(17, 15);
    let unknown = Call::Unknown {
        number: 15,
        args: [110, 111, 112, 113, 114, 115],
    };
    assert_eq!(rt; context.asked_call(), unknown);
}

#[test]
fn a_reply_stands_from_x10_on(rt: HostRuntime) {
    let concurrent = Reply::ConcurrentCall {
        lock: ObjectId::Region(3),
        holder: 2,
        serial: 9,
    };
    // The reply, and x9 to x15 after it.
    for (reply, registers) in [
        (Reply::done(), [109, 0, 111, 112, 113, 114, 115]),
        (Reply::ok_with_four(7, 8, 9, 0), [109, 0, 7, 8, 9, 0, 115]),
        (Reply::InvalidValue, [109, 1, 111, 112, 113, 114, 115]),
        (Reply::InvalidState, [109, 2, 111, 112, 113, 114, 115]),
        (Reply::AccessDenied, [109, 3, 111, 112, 113, 114, 115]),
        (concurrent, [109, 4, 67, 2, 9, 114, 115]),
        (Reply::NotFlushed, [109, 5, 111, 112, 113, 114, 115]),
        (Reply::Unsupported, [109, 6, 111, 112, 113, 114, 115]),
    ] {
        let mut context = guest(64);
        context.reply(&reply);
        let x = context.regs;
        assert_eq!(rt;
            [x[9], x[10], x[11], x[12], x[13], x[14], x[15]],
            registers,
            "after {reply:?}"
        );
        assert_eq!(rt; context.pc, 68);
    }
}

#[test]
fn eight_words_stand_in_x11_to_x18(rt: HostRuntime) {
    let mut context = guest(u64::MAX - 3);
    context.reply(&Reply::ok_with_eight([1, 2, 3, 4, 5, 6, 7, 8]));
    let x = context.regs;
    assert_eq!(rt; (x[10], x[11], x[17], x[18], x[19]), (0, 1, 7, 8, 119));
    assert_eq!(rt; context.pc, 0);
}

#[test]
fn a_guest_that_enters_goes_on_past_its_ecall(rt: HostRuntime) {
    let start = Start { pc: 64, sp: 128 };
    let mut contexts = Contexts::begin(0, &start);
    contexts.current = guest(64);
    let mut thread = Thread::empty();
    thread.entry = 4096;
    thread.sp = 8192;
    let entered = After::entering(&Enclave::empty(), &thread);
    contexts.change(&entered, Leaving::Exit);
    contexts.answer(&entered, &Reply::done());
    let inside = contexts.current;
    assert_eq!(rt;
        (inside.pc, inside.regs[2], inside.regs[10], inside.regs[11]),
        (4096, 8192, 0, 0)
    );
    // A call that changes no context leaves the OS's.
    contexts.answer(&After::Nothing, &Reply::InvalidState);
    assert_eq!(rt; (contexts.current.pc, contexts.current.regs[10]), (4100, 2));
    contexts.change(&After::Left, Leaving::Exit);
    contexts.answer(&After::Left, &Reply::done());
    let os = contexts.current;
    assert_eq!(rt;
        (os.pc, os.regs[9], os.regs[10], os.regs[11], os.regs[14]),
        (68, 109, 0, 0, 114)
    );
}

#[test]
fn a_restored_guest_goes_on_where_it_was(rt: HostRuntime) {
    let start = Start { pc: 64, sp: 128 };
    let mut contexts = Contexts::begin(0, &start);
    let restored = After::Restored {
        saved: guest(4096).save(13),
    };
    contexts.change(&restored, Leaving::Exit);
    contexts.answer(&restored, &Reply::ok_with_word(5));
    assert_eq!(rt; contexts.current, guest(4096));
}
