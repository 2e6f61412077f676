//! Traces.

use mon_types::{Config, Items};

/// Accesses to physical addresses of a machine's DRAM, the earliest first, and how many lines a set of its
/// cache has.
#[derive(Debug, Drop)]
pub struct Trace {
    pub config: Config,
    pub ways: u8,
    pub addresses: Items<u64>,
}
