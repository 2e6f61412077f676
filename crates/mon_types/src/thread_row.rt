//! The rows of words that hold the records of thread slots.

ghost use Rattle.std.specs.Prelude.{◌≡◌, ◌≢◌};
ghost use Rattle.mon_types.specs.declared.thread.Thread.{Thread};
ghost use Rattle.mon_types.specs.Threads.{IsThread, StateNamesSlot, empty_thread, state_code, state_from, thread_from, thread_parts, thread_row};

use crate::thread::{Thread, ThreadState};
use crate::words::{joined, u32_of, words_at};

fn state_word(state: ThreadState) -> u64
    requires { StateNamesSlot state }
    ensures { result ≡ state_code state }
{
    match state {
        ThreadState::Empty => 0,
        ThreadState::Ready { enclave } => 1 + u64::from(enclave),
        ThreadState::Running { enclave } => 9 + u64::from(enclave),
    }
}

#[tactic(auto, unfolding(crate::specs::Threads::state_from))]
fn state_of(word: u64) -> ThreadState
    ensures { result ≡ state_from word }
{
    match word {
        1..=8 => ThreadState::Ready {
            enclave: (word - 1) as u8,
        },
        9..=16 => ThreadState::Running {
            enclave: (word - 9) as u8,
        },
        _ => ThreadState::Empty,
    }
}

/// The row of a thread slot: 0 empty, 1 + e ready or 9 + e running, its entry, its stack pointer, the
/// ticket of its save, and the 33 saved words. The enclave's slot e is below 8.
pub fn thread_words(thread: &Thread) -> [u64; 37]
    requires { StateNamesSlot thread.now.state }
    ensures { result ≡ thread_row thread.now }
{
    let numbers = [
        state_word(thread.state),
        thread.entry,
        thread.sp,
        u64::from(thread.saved_at),
    ];
    joined(&numbers, &thread.saved)
}

/// The record whose row these words are; some record where none has this row.
#[tactic(auto, unfolding(crate::specs::Threads::thread_parts))]
fn candidate(words: &[u64; 37]) -> Thread
    ensures parts { result ≡ thread_parts words.now }
    ensures valid { IsThread result }
{
    Thread {
        state: state_of(words[0]),
        entry: words[1],
        sp: words[2],
        saved_at: u32_of(words[3]),
        saved: words_at(words, 4),
    }
}

/// The record whose row these words are; where they are no record's row, that of a slot that holds no
/// thread.
pub fn thread_of(words: &[u64; 37]) -> Thread
    ensures read { result ≡ thread_from words.now }
    ensures valid { IsThread result }
    ensures back { (t : Thread) → IsThread t → thread_row t ≡ words.now → result ≡ t }
    ensures none { ((t : Thread) → IsThread t → thread_row t ≢ words.now) → result ≡ empty_thread }
{
    let thread = candidate(words);
    if thread_words(&thread) == *words {
        thread
    } else {
        Thread::empty()
    }
}
