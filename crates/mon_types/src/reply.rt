//! What a monitor call answers.

ghost use Rattle.std.specs.Prelude.{◌≡◌};
ghost use Rattle.mon_types.specs.Replies.{done, done_if, ok_with_word, ok_with_four, ok_with_eight, is_done};

use crate::object::ObjectId;

/// The reply to a monitor call.
#[derive(Clone, Copy, Debug, PartialEq, Eq)]
pub enum Reply {
    /// Done, with the first `count` of the words; words past `count` are 0.
    Ok {
        count: u8,
        words: [u64; 8],
    },
    /// An argument is out of range.
    InvalidValue,
    /// An object is not in the state that the call wants.
    InvalidState,
    /// The caller may not make this call, or does not own the object.
    AccessDenied,
    /// Another core's call of this serial held the lock.
    ConcurrentCall {
        lock: ObjectId,
        holder: u8,
        serial: u32,
    },
    /// Some core has not flushed since the region was blocked.
    NotFlushed,
    /// There is no call of this number.
    Unsupported,
}

impl Reply {
    /// Ok with no words.
    pub fn done() -> Reply
        ensures { result ≡ done }
    {
        Reply::Ok {
            count: 0,
            words: [0; 8],
        }
    }

    /// Ok with no words where the call may be made, else InvalidState.
    pub fn done_if(may: bool) -> Reply
        ensures { result ≡ done_if may }
    {
        if may {
            Reply::done()
        } else {
            Reply::InvalidState
        }
    }

    /// Ok with one word.
    pub fn ok_with_word(word: u64) -> Reply
        ensures { result ≡ ok_with_word word }
    {
        Reply::Ok {
            count: 1,
            words: [word, 0, 0, 0, 0, 0, 0, 0],
        }
    }

    /// Ok with four words.
    pub fn ok_with_four(a: u64, b: u64, c: u64, d: u64) -> Reply
        ensures { result ≡ ok_with_four a b c d }
    {
        Reply::Ok {
            count: 4,
            words: [a, b, c, d, 0, 0, 0, 0],
        }
    }

    /// Ok with eight words.
    pub fn ok_with_eight(words: [u64; 8]) -> Reply
        ensures { result ≡ ok_with_eight words }
    {
        Reply::Ok { count: 8, words }
    }

    /// Whether the call was carried out.
    pub fn is_ok(&self) -> bool
        ensures { result ≡ is_done self.now }
    {
        matches!(self, Reply::Ok { .. })
    }
}
