//! Thread slots, and whom a core runs for.

ghost use Rattle.std.specs.Prelude.{◌≡◌};
ghost use Rattle.mon_types.specs.Threads.{empty_thread};
ghost use Rattle.mon_types.specs.Modes.{own_slot, own_thread};

/// What a thread slot is. `enclave` is the slot of the enclave to which the thread belongs.
#[derive(Clone, Copy, Debug, PartialEq, Eq)]
pub enum ThreadState {
    Empty,
    Ready { enclave: u8 },
    Running { enclave: u8 },
}

/// The record of a thread slot. An empty slot's record has all numbers 0.
#[derive(Clone, Copy, Debug, PartialEq, Eq)]
pub struct Thread {
    pub state: ThreadState,
    /// The pc at which the thread is entered.
    pub entry: u64,
    /// The stack pointer with which it is entered.
    pub sp: u64,
    /// The ticket of the exit that saved `saved`, or 0 where nothing is saved.
    pub saved_at: u32,
    /// The pc, the registers x1 to x31 and the cause of that exit.
    pub saved: [u64; 33],
}

impl Thread {
    /// The record of a slot that holds no thread.
    pub fn empty() -> Thread
        ensures { result ≡ empty_thread }
    {
        Thread {
            state: ThreadState::Empty,
            entry: 0,
            sp: 0,
            saved_at: 0,
            saved: [0; 33],
        }
    }
}

impl Default for Thread {
    ghost is_default = { λ t. t ≡ empty_thread };

    fn default() -> Thread {
        Thread::empty()
    }
}

/// Whom a core runs for: the OS, or this thread of this enclave.
#[derive(Clone, Copy, Debug, PartialEq, Eq)]
pub enum Mode {
    Os,
    Inside { enclave: u8, thread: u8 },
}

impl Mode {
    /// The slot of the enclave that the core is inside; 0 for the OS, of which no call asks this.
    pub fn own_slot(self) -> u8
        ensures { result ≡ own_slot self }
    {
        match self {
            Mode::Os => 0,
            Mode::Inside { enclave, .. } => enclave,
        }
    }

    /// The slot of the thread by which it is inside; 0 for the OS, of which no call asks this.
    pub fn own_thread(self) -> u8
        ensures { result ≡ own_thread self }
    {
        match self {
            Mode::Os => 0,
            Mode::Inside { thread, .. } => thread,
        }
    }
}
