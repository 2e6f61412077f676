//! Scripts and schedules.

use crate::call::Call;
use crate::items::Items;

/// A line of a script.
#[derive(Clone, Copy, Debug, PartialEq, Eq)]
pub enum Line {
    /// A monitor call.
    Make(Call),
    /// Up to this many turns of one instruction.
    Run(u32),
    /// Makes an exit pending, in an enclave.
    Tick,
    /// Loads the word at this virtual address.
    LoadWord(u64),
    /// Stores a word at a virtual address: the address, then the word.
    StoreWord(u64, u64),
    /// Sets the pc.
    SetPc(u64),
    /// Sets a register, x1 to x31.
    SetReg(u8, u64),
}

/// A script: the lines of each core, from core 0 on.
#[derive(Debug, Drop)]
pub struct Script {
    pub cores: Items<Items<Line>>,
}

/// An item of a schedule: so many steps of a core.
#[derive(Clone, Copy, Debug, PartialEq, Eq)]
pub struct StepItem {
    pub core: u8,
    pub count: u32,
}
