//! All that a call keeps from move to move.

use crate::phase::{Lock, Phase};
use arrayvec::ArrayVec;
use core_context::After;
use hist::PageInput;
use lock_plan::Held;
use mon_types::{Call, Config, Mode, PAGE_WORDS, Reply, Tried};

/// How many objects a call holds at most: a delete of an enclave with 64 regions.
pub const MOST_LOCKS: usize = 65;

/// Room for the words of all rows that a call holds: 157 of a delete, fewer of any other.
pub const MOST_WORDS: usize = 160;

/// A call in the middle of its moves.
#[derive(Debug, Drop)]
pub struct Work {
    pub config: Config,
    /// The core that makes the call.
    pub core: u8,
    /// How many calls it has made before.
    pub serial: u32,
    pub mode: Mode,
    pub call: Call,
    /// How many answers the core had before the call.
    pub answers: u32,
    /// The objects that are held, in the order in which they were taken; while the row of one is read, that one
    /// is not among them.
    pub locks: ArrayVec<Lock, MOST_LOCKS>,
    /// The words that stand in their rows, row after row, with those of a row that is being read.
    pub stood: ArrayVec<u64, MOST_WORDS>,
    /// Their records, and from the Draw on those that the call leaves.
    pub held: Held,
    /// The objects whose locks the call has tried, or tries next.
    pub tried: Tried,
    /// The words of DRAM on the address's path whose page-table entries were loaded.
    pub places: ArrayVec<u32, 3>,
    /// These page-table entries.
    pub ptes: ArrayVec<u64, 3>,
    /// The words that were loaded of the page that is copied.
    pub page: ArrayVec<u64, PAGE_WORDS>,
    /// What is told of that page.
    pub input: Option<PageInput>,
    /// The reply, once it is decided.
    pub reply: Reply,
    /// The words that are to stand in the rows, from the Draw on.
    pub wanted: ArrayVec<u64, MOST_WORDS>,
    /// The reply and what it does to the core, once the Draw has fixed them.
    pub ends: Option<(Reply, After)>,
    pub phase: Phase,
}
