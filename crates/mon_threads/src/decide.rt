//! What the calls on threads answer once their objects are held.

ghost use Rattle.std.specs.Prelude.{◌≡◌};
ghost use Rattle.mon_types.specs.Replies.{done, ok_with_word};
ghost use Rattle.mon_model.specs.ThreadCalls.{is_ready_in, load_thread_reply, delete_thread_reply, enter_reply, restore_reply};

use mon_types::{Enclave, Reply, Stage, Thread, ThreadState};

/// load_thread: InvalidState where the enclave is not Loading or the thread slot is not Empty.
pub fn decide_load_thread(enclave: &Enclave, thread: &Thread) -> Reply
    ensures { result ≡ load_thread_reply enclave.now thread.now }
{
    if enclave.stage == Stage::Loading && thread.state == ThreadState::Empty {
        Reply::done()
    } else {
        Reply::InvalidState
    }
}

/// Whether a thread in this state belongs to the enclave in slot `e` and does not run.
fn is_ready(state: ThreadState, e: u8) -> bool
    ensures { result ≡ is_ready_in e state }
{
    match state {
        ThreadState::Ready { enclave } => e == enclave,
        ThreadState::Empty | ThreadState::Running { .. } => false,
    }
}

/// delete_thread, of the enclave in slot `e`: InvalidState where the thread slot is Empty, the thread
/// is another enclave's, or it runs.
pub fn decide_delete_thread(e: u8, thread: &Thread) -> Reply
    ensures { result ≡ delete_thread_reply e thread.now }
{
    if is_ready(thread.state, e) {
        Reply::done()
    } else {
        Reply::InvalidState
    }
}

/// enter, of the enclave in slot `e`, which has this record: InvalidState where the enclave is not
/// Initialized, the thread slot is Empty, the thread is another enclave's, or it runs.
pub fn decide_enter(e: u8, enclave: &Enclave, thread: &Thread) -> Reply
    ensures { result ≡ enter_reply e enclave.now thread.now }
{
    if enclave.stage == Stage::Initialized && is_ready(thread.state, e) {
        Reply::done()
    } else {
        Reply::InvalidState
    }
}

/// exit, which has no refusal here.
pub fn decide_exit() -> Reply
    ensures { result ≡ done }
{
    Reply::done()
}

/// aex, which has no refusal here.
pub fn decide_aex() -> Reply
    ensures { result ≡ done }
{
    Reply::done()
}

/// restore, by the own thread: InvalidState where nothing is saved. The word is the ticket of the save.
pub fn decide_restore(thread: &Thread) -> Reply
    ensures { result ≡ restore_reply thread.now }
{
    if thread.saved_at == 0 {
        Reply::InvalidState
    } else {
        Reply::ok_with_word(u64::from(thread.saved_at))
    }
}
