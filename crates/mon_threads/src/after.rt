//! What the calls on threads leave.

ghost use Rattle.std.specs.Prelude.{◌≡◌};
ghost use Rattle.mon_types.specs.Threads.{empty_thread};
ghost use Rattle.mon_model.specs.ThreadCalls.{ready, with_thread_loaded, without_thread, running, stopped, left, left_saving, restored};
ghost use Rattle.mon_threads.specs.Named.{named_slot, named_entry, named_sp, saved_named, IsLoadThread, IsEnter, IsAex};

use mon_measure::{Item, measure_with};
use mon_types::{Call, Enclave, Thread, ThreadState};

/// What load_thread leaves: the thread slot is Ready in the enclave that the call names, with the call's
/// entry and stack pointer and nothing saved. `enclave` is that enclave's record: it has one thread more,
/// and its measurement is extended by the entry and the stack pointer. A count of 255 does not grow.
pub fn after_load_thread(ticket: u32, call: &Call, enclave: &mut Enclave, thread: &mut Thread)
    requires { IsLoadThread call.now }
    ensures enclave { enclave.new ≡ with_thread_loaded enclave.old (named_entry call.now) (named_sp call.now) }
    ensures thread { thread.new ≡ ready (named_slot call.now) (named_entry call.now) (named_sp call.now) }
{
    let Call::LoadThread { e, entry, sp, .. } = *call else {
        unreachable!()
    };
    enclave.measure = measure_with(&enclave.measure, &Item::Thread { entry, sp });
    enclave.threads = enclave.threads.saturating_add(1);
    *thread = Thread {
        state: ThreadState::Ready { enclave: e as u8 },
        entry,
        sp,
        ..Thread::empty()
    };
}

/// What delete_thread leaves: the thread slot is Empty, and the enclave has one thread less. A count of
/// 0 does not fall.
pub fn after_delete_thread(ticket: u32, call: &Call, enclave: &mut Enclave, thread: &mut Thread)
    ensures enclave { enclave.new ≡ without_thread enclave.old }
    ensures thread { thread.new ≡ empty_thread }
{
    enclave.threads = enclave.threads.saturating_sub(1);
    *thread = Thread::empty();
}

/// What enter leaves: the thread runs in the enclave that the call names, whose record is `enclave`.
pub fn after_enter(ticket: u32, call: &Call, enclave: &Enclave, thread: &mut Thread)
    requires { IsEnter call.now }
    ensures { thread.new ≡ running (named_slot call.now) thread.old }
{
    let Call::Enter { e, .. } = *call else {
        unreachable!()
    };
    thread.state = ThreadState::Running { enclave: e as u8 };
}

/// The state of a thread that was left: one that ran is Ready, any other state stays.
fn state_left(state: ThreadState) -> ThreadState
    ensures { result ≡ stopped state }
{
    match state {
        ThreadState::Running { enclave } => ThreadState::Ready { enclave },
        other => other,
    }
}

/// What exit leaves: the own thread is Ready, in the enclave in which it ran. A thread that does not run
/// stays as it is.
pub fn after_exit(ticket: u32, call: &Call, thread: &mut Thread)
    ensures { thread.new ≡ left thread.old }
{
    thread.state = state_left(thread.state);
}

/// What aex leaves: the own thread is Ready, in the enclave in which it ran, with the call's words saved
/// at the ticket. The state of a thread that does not run stays as it is.
pub fn after_aex(ticket: u32, call: &Call, thread: &mut Thread)
    requires { IsAex call.now }
    ensures { thread.new ≡ left_saving thread.old (saved_named call.now) ticket }
{
    let Call::Aex { saved } = *call else {
        unreachable!()
    };
    thread.state = state_left(thread.state);
    thread.saved_at = ticket;
    thread.saved = saved;
}

/// What restore leaves: nothing is saved in the own thread.
pub fn after_restore(ticket: u32, call: &Call, thread: &mut Thread)
    ensures { thread.new ≡ restored thread.old }
{
    thread.saved_at = 0;
    thread.saved = [0; 33];
}
