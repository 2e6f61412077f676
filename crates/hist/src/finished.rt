//! A finished run.

use crate::log::Log;
use mon_types::{Config, Enclave, Items, Mode, Region, Thread};

/// What a run leaves: the log and the answers of each core, the tables of the monitor, and the words
/// of DRAM. Answers are the words that a core was given by loads and looks, and found by a refused
/// swap.
#[derive(Debug, Drop)]
pub struct Finished {
    pub config: Config,
    pub logs: Items<Log>,
    pub answers: Items<Items<u64>>,
    pub regions: Items<Region>,
    pub enclaves: Items<Enclave>,
    pub threads: Items<Thread>,
    /// The ticket of each core's last flush.
    pub flushed: Items<u32>,
    pub modes: Items<Mode>,
    pub words: Items<u64>,
}
