//! What a monitor call does to the core that made it.

ghost use Rattle.std.specs.Prelude.{◌≡◌};
ghost use Rattle.core_context.specs.Changes.{entering};

use mon_types::{Enclave, Thread};

/// What a finished monitor call does to its core, apart from the reply.
#[derive(Clone, Copy, Debug, PartialEq, Eq)]
pub enum After {
    /// Every refusal, and every call that none of the others names.
    Nothing,
    /// Ok of flush and set_satp: the core's translations are gone.
    Cleared,
    /// Ok of enter: the thread's entry and stack pointer, the range of the enclave in bytes, the page number of
    /// its root page table, and whether the thread has something saved.
    Entered {
        entry: u64,
        sp: u64,
        base: u64,
        size: u64,
        root: u16,
        saved: bool,
    },
    /// Ok of exit and aex.
    Left,
    /// Ok of restore: the pc, x1 to x31 and the cause that were saved.
    Restored {
        saved: [u64; 33],
    },
}

impl After {
    /// What Ok of enter does, for these records. Where the enclave has no root, which never comes, the root is 0.
    pub fn entering(enclave: &Enclave, thread: &Thread) -> After
        ensures { result ≡ entering enclave.now thread.now }
    {
        After::Entered {
            entry: thread.entry,
            sp: thread.sp,
            base: enclave.base,
            size: enclave.size,
            root: enclave.root.unwrap_or(0),
            saved: thread.saved_at != 0,
        }
    }
}
