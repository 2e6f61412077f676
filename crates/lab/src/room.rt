//! Room for what the cores leave, taken at the start.

ghost use Rattle.std.specs.Prelude.{◌≡◌, map, vec_len, IfOk};
ghost use Rattle.lab.specs.Stands.{HasRoom};

use crate::lab_core::LabCore;
use hist::Log;
use mon_types::{Items, Mode};
use std::alloc::{AllocError, Global};

/// Empty lists with room for the log, the answers and the mode of each core.
#[derive(Debug, Drop)]
pub struct Room {
    pub logs: Vec<Log>,
    pub answers: Vec<Items<u64>>,
    pub modes: Vec<Mode>,
}

/// What the cores leave: the log, the answers and the mode of each.
#[derive(Debug, Drop)]
pub struct Left {
    pub logs: Items<Log>,
    pub answers: Items<Items<u64>>,
    pub modes: Items<Mode>,
}

impl Room {
    /// Room for so many cores.
    pub fn new(alloc: Global, cores: usize) -> Result<Room, AllocError>
        ensures { IfOk result (HasRoom cores) }
    {
        Ok(Room {
            logs: Vec::with_capacity(alloc, cores)?,
            answers: Vec::with_capacity(alloc, cores)?,
            modes: Vec::with_capacity(alloc, cores)?,
        })
    }

    /// What these cores leave. Takes no memory.
    pub fn fill(self, cores: Vec<LabCore>) -> Left
        requires { HasRoom (vec_len cores) self }
        ensures logs { result.logs ≡ map (λ k. k.log) cores.items }
        ensures answers { result.answers ≡ map (λ k. k.answers) cores.items }
        ensures modes { result.modes ≡ map (λ k. k.machine.own.mode) cores.items }
    {
        let Room {
            mut logs,
            mut answers,
            mut modes,
        } = self;
        for core in cores {
            let LabCore {
                machine,
                log,
                answers: given,
                ended: _,
            } = core;
            modes.push_reserved(machine.mode());
            logs.push_reserved(log);
            answers.push_reserved(given.into_items());
        }
        Left {
            logs: Items::from_vec(logs),
            answers: Items::from_vec(answers),
            modes: Items::from_vec(modes),
        }
    }
}
