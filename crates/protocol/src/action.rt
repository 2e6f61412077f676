//! Moves on the words that all cores share, and their outcomes.

use hist::{PageInput, Why};
use mon_types::{Call, ObjectId, Owner, Reply, Tried};

/// What a call fixes when it draws its ticket: with the ticket and the core this is its entry.
#[derive(Clone, Copy, Debug, PartialEq, Eq)]
pub struct Draft {
    /// How many calls of the core were before it.
    pub serial: u32,
    pub call: Call,
    /// Some exactly for a load_page that answers Ok.
    pub page: Option<PageInput>,
    pub reply: Reply,
    /// The objects whose locks the call has tried.
    pub tried: Tried,
}

/// A move of a monitor call. Each acts on one shared word.
#[derive(Clone, Copy, Debug, PartialEq, Eq)]
pub enum Action {
    /// A compare and exchange of the object's lock word, from 0 to that of this call.
    TryLock {
        object: ObjectId,
    },
    /// The word at this place in the row of a held object.
    Read {
        object: ObjectId,
        at: u8,
    },
    /// The same place gets this word.
    Write {
        object: ObjectId,
        at: u8,
        value: u64,
    },
    /// One more ticket, which makes the draft an entry.
    Draw {
        draft: Draft,
    },
    /// The object's lock word becomes 0.
    Unlock {
        object: ObjectId,
    },
    /// A word of DRAM, by its number.
    Load {
        word: u32,
    },
    /// A word of DRAM gets this value.
    Store {
        word: u32,
        value: u64,
    },
}

/// What a core does next: a move of its monitor call, or outside calls a look, a move on a word of DRAM, or
/// a stop, which acts on no word and stands in the log alone.
#[derive(Clone, Copy, Debug, PartialEq, Eq)]
pub enum Move {
    InCall(Action),
    /// A load of the region's own-word, to see whether this owner has it.
    Look { region: u8, owner: Owner },
    Load { word: u32 },
    Store { word: u32, value: u64 },
    /// A compare and exchange of a word of DRAM, from the one that was loaded to this value.
    Swap { word: u32, loaded: u64, value: u64 },
    /// A stop at a line of the core's script, counted from 1.
    Stop { line: u32, why: Why },
}

/// What a move answers.
#[derive(Clone, Copy, Debug, PartialEq, Eq)]
pub enum Outcome {
    /// The lock was free, and is taken.
    Taken,
    /// The lock word was that of this core's call of this serial.
    HeldBy { core: u8, serial: u32 },
    /// The word that was found.
    Word(u64),
    /// The ticket that was drawn.
    Ticket(u32),
    /// A word was stored, or a core stopped.
    Done,
    /// A swap has found another word than the one that was loaded, and stored nothing.
    Again { loaded: u64, found: u64 },
}
