//! What the words hold in the end.

use mon_types::{Enclave, Items, Region, Thread};

/// The tables of the monitor that the rows hold, and the words of DRAM.
#[derive(Debug, Drop)]
pub struct Tables {
    pub regions: Items<Region>,
    pub enclaves: Items<Enclave>,
    pub threads: Items<Thread>,
    /// The ticket of each core's last flush.
    pub flushed: Items<u32>,
    pub words: Items<u64>,
}
