//! What a call does next.

use mon_types::ObjectId;

/// An object that the call holds.
#[derive(Clone, Copy, Debug, PartialEq, Eq)]
pub struct Lock {
    pub object: ObjectId,
}

impl Default for Lock {
    fn default() -> Lock {
        Lock {
            object: ObjectId::Enclave(0),
        }
    }
}

/// What a call does next, with what it needs to know for it beside what it keeps all the time.
#[derive(Clone, Copy, Debug, PartialEq, Eq)]
pub enum Phase {
    /// It tries the lock of this object.
    Tries { object: ObjectId },
    /// It holds this object, and reads this word of its row.
    Reads { object: ObjectId, at: u8 },
    /// It loads the page-table entry on its address's path that stands in the table of this level on this page;
    /// so many are to be loaded at most, this one among them.
    Walks { page: u16, level: u8, left: u8 },
    /// It loads this word of the page that it copies.
    Loads { at: u16 },
    /// It stores what it has loaded at the same place of the other page.
    Stores { at: u16, word: u64 },
    /// It stores the page-table entry that leads to what it loads into the enclave.
    Puts { place: u32 },
    /// It withdraws the region at this place among those that it holds.
    Early { at: u8 },
    /// It draws its ticket, and is refused.
    Refuses,
    /// It draws its ticket, and is Ok.
    Draws,
    /// It stores 0 in this word of the region that it has freed.
    Zeros { word: u32 },
    /// It writes the word at this place of all rows that it holds.
    Late { at: u8 },
    /// It gives so many locks back, the last one first.
    Unlocks { left: u8 },
    /// It is over.
    Over,
}
