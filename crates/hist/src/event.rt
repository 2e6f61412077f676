//! What a core logs.

use mon_types::{Call, Reply, Tried};

/// The page that a load_page read: the SHA-256 of its 4,096 bytes, and at which place of the core's
/// answers its 512 words begin.
#[derive(Clone, Copy, Debug, PartialEq, Eq)]
pub struct PageInput {
    pub digest: [u8; 32],
    pub at: u32,
}

/// A finished monitor call. Tickets count the calls of all cores from 1, serials those of one core
/// from 0.
#[derive(Clone, Copy, Debug, PartialEq, Eq)]
pub struct Entry {
    pub ticket: u32,
    pub core: u8,
    pub serial: u32,
    pub call: Call,
    /// Some exactly for a load_page that answered Ok.
    pub page: Option<PageInput>,
    pub reply: Reply,
    /// The objects whose locks the call tried.
    pub tried: Tried,
}

/// Why a script line stopped.
#[derive(Clone, Copy, Debug, PartialEq, Eq)]
pub enum Why {
    /// A trap in OS mode.
    Trap { cause: u64, value: u64 },
    /// The core's budget of events or answers had run out.
    Limit,
}

/// An event of a core.
#[derive(Clone, Copy, Debug, PartialEq, Eq)]
pub enum Event {
    Entry(Entry),
    /// The first good look at a region that was owned since this ticket, since the core's last clear.
    Touch { region: u8, since: u32 },
    /// A stop at a line of the core's script, counted from 1.
    Stop { line: u32, why: Why },
}
