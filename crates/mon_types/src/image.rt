//! Images of a machine's memory.

use crate::config::Config;
use crate::items::Items;

/// Where a core starts: its pc and its stack pointer.
#[derive(Clone, Copy, Debug, PartialEq, Eq)]
pub struct Start {
    pub pc: u64,
    pub sp: u64,
}

/// Words of DRAM from a physical address on, which is a multiple of 8.
#[derive(Debug, Drop)]
pub struct Segment {
    pub address: u64,
    pub words: Items<u64>,
}

/// A machine before its first step: its configuration, a start for each core, and what DRAM holds
/// (zeros outside the segments).
#[derive(Debug, Drop)]
pub struct Image {
    pub config: Config,
    pub starts: Items<Start>,
    pub segments: Items<Segment>,
}
