//! The tables on which calls work.

ghost use Rattle.std.specs.Prelude.{◌≡◌, [], replicate, IfOk};
ghost use Rattle.mon_model.specs.State.{start};
ghost use Rattle.mon_facts.specs.Tables.{AreTables};

use crate::loaded_items::LoadedItems;
use mon_types::{Config, Enclave, Mode, Owner, Region, SLOTS, THREADS, Thread};
use std::alloc::{AllocError, Global};
use std::marker::Model;

/// The tables of the monitor: by number each region, enclave slot and thread slot, for each core the
/// ticket of its last flush and for whom it runs, and for each enclave slot the items loaded into it.
#[derive(Debug, Drop)]
pub struct MonitorState {
    pub config: Config,
    pub regions: Vec<Region>,
    pub enclaves: Vec<Enclave>,
    pub threads: Vec<Thread>,
    pub flushed: Vec<u32>,
    pub modes: Vec<Mode>,
    pub loaded: Vec<LoadedItems>,
}

impl Model for MonitorState {
    ghost use Rattle.mon_model.specs.State.{State};

    ghost Value = { State };

    ghost view = { λ b. record { shape = b.config; regions = b.regions.items; enclaves = b.enclaves.items; threads = b.threads.items; flushed = b.flushed.items; modes = b.modes.items; loaded = b.loaded.items } };
}

/// No items for any enclave slot.
fn no_items(alloc: Global) -> Result<Vec<LoadedItems>, AllocError>
    ensures { IfOk result (λ v. v.items ≡ replicate 8 []) }
{
    let mut loaded = Vec::new(alloc);
    for i in 0..SLOTS {
        loaded.push(LoadedItems::new(alloc)?)?;
    }
    Ok(loaded)
}

impl MonitorState {
    /// The tables at the start of such a machine.
    pub fn new(alloc: Global, config: Config) -> Result<MonitorState, AllocError>
        ensures start { IfOk result (λ b. b ≡ start config) }
        ensures tables { IfOk result (λ b. AreTables b) }
    {
        let owned = Region::Owned {
            owner: Owner::Os,
            since: 0,
        };
        let regions = vec![in alloc; owned; usize::from(config.regions())]?;
        let enclaves = vec![in alloc; Enclave::empty(); SLOTS]?;
        let threads = vec![in alloc; Thread::empty(); THREADS]?;
        let flushed = vec![in alloc; 0; usize::from(config.cores())]?;
        let modes = vec![in alloc; Mode::Os; usize::from(config.cores())]?;
        let loaded = no_items(alloc)?;
        Ok(MonitorState {
            config,
            regions,
            enclaves,
            threads,
            flushed,
            modes,
            loaded,
        })
    }
}
