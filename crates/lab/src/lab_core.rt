//! One core of the machine.

ghost use Rattle.std.specs.Prelude.{◌≡◌, IfOk};
ghost use Rattle.lab.specs.Fresh.{new_core};

use crate::answers::Answers;
use core_machine::CoreMachine;
use hist::Log;
use mon_types::EVENT_BUDGET;
use std::alloc::{AllocError, Global};

/// A core, with what it has logged and the words that it was given.
#[derive(Debug, Drop)]
pub struct LabCore {
    pub machine: CoreMachine,
    pub log: Log,
    pub answers: Answers,
    /// Whether a step has found the end of its script.
    pub ended: bool,
}

impl LabCore {
    /// A core that has logged nothing and was given nothing, with all the room that it will need.
    pub fn new(alloc: Global, machine: CoreMachine) -> Result<LabCore, AllocError>
        ensures { IfOk result (λ k. k ≡ new_core machine) }
    {
        let log = Log::new(alloc, EVENT_BUDGET)?;
        let answers = Answers::new(alloc)?;
        Ok(LabCore {
            machine,
            log,
            answers,
            ended: false,
        })
    }
}
