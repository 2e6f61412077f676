//! The tables that a monitor leaves.

use mon_types::{Enclave, Items, Mode, Region, Thread};

/// The tables of a monitor: by number each region, enclave slot and thread slot, and for each core the
/// ticket of its last flush and for whom it runs.
#[derive(Debug, Drop)]
pub struct Tables {
    pub regions: Items<Region>,
    pub enclaves: Items<Enclave>,
    pub threads: Items<Thread>,
    pub flushed: Items<u32>,
    pub modes: Items<Mode>,
}
