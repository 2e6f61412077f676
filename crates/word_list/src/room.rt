//! Room for the records that the rows hold in the end, taken at the start.

ghost use Rattle.std.specs.Prelude.{IfOk};
ghost use Rattle.word_list.specs.Kept.{HasRoom};

use mon_types::{Config, Enclave, Region, SLOTS, THREADS, Thread};
use std::alloc::{AllocError, Global};

/// Empty lists with room for each region, enclave slot, thread slot and cell.
#[derive(Debug, Drop)]
pub(crate) struct Room {
    pub regions: Vec<Region>,
    pub enclaves: Vec<Enclave>,
    pub threads: Vec<Thread>,
    pub flushed: Vec<u32>,
}

impl Room {
    pub fn new(alloc: Global, config: &Config) -> Result<Room, AllocError>
        ensures { IfOk result (HasRoom config.now) }
    {
        Ok(Room {
            regions: Vec::with_capacity(alloc, usize::from(config.regions()))?,
            enclaves: Vec::with_capacity(alloc, SLOTS)?,
            threads: Vec::with_capacity(alloc, THREADS)?,
            flushed: Vec::with_capacity(alloc, usize::from(config.cores()))?,
        })
    }
}
