//! The machine of many cores under a schedule.

ghost use Rattle.std.specs.Prelude.{◌≡◌, ◌<◌, ℕ, List, [], ◌∷◌, IfOk};
ghost use Rattle.mon_types.specs.declared.image.Image.{Image};
ghost use Rattle.mon_types.specs.declared.script.Line.{Line};
ghost use Rattle.protocol.specs.Runs.{Made};
ghost use Rattle.core_behaviour.specs.Runs.{run_by, finished_run, IsFinishedBy};
ghost use Rattle.lab.specs.Stands.{Stands, IsMade, IsNew};
ghost use Rattle.lab.specs.Rounds.{NamesCores, cores_by, HaveAllEnded, GoesUnder, AnswersStep, EndsWithStep, RunsOut};

use crate::bench::Bench;
use core_machine::Machine;
use hist::Finished;
use mon_types::StepItem;
use std::alloc::{AllocError, Global};
use std::marker::Model;

/// A machine of one to sixteen cores, which take steps one after the other. A step is the private work of a core up to
/// its next move, and that move. All memory is taken before the first step.
#[derive(Debug, Drop)]
pub struct Lab {
    bench: Bench,
}

impl Model for Lab {
    ghost use Rattle.lab.specs.declared.bench.Bench.{Bench};
    ghost use Rattle.lab.specs.Stands.{IsReached};

    ghost Value = { Bench };

    ghost view = { λ l. l.bench };

    ghost invariant = { λ l. IsReached l.bench };
}

impl Lab {
    /// The machine before its first step, as `Machine::new` gave it. Takes all the memory that steps will need; the only
    /// error is the want of it.
    pub fn new(alloc: Global, machine: Machine) -> Result<Lab, AllocError>
        requires { IsNew machine }
        ensures stands { (image : Image) (script : List (List Line)) → IsMade image script machine → IfOk result (Stands image script []) }
        ensures config { IfOk result (λ l. l.config ≡ machine.config) }
    {
        let bench = Bench::new(alloc, machine)?;
        Ok(Lab { bench })
    }

    /// Lets a core of the machine take a step: the private work up to its next move, and that move. False exactly where
    /// the core had ended; a step that reaches the end without a move answers true, and the core has then ended.
    pub fn step(&mut self, core: u8) -> bool
        requires { core < self.old.config.cores }
        ensures goes { GoesUnder (λ image. core ∷ []) self.old self.new }
        ensures answers { AnswersStep core self.old result }
        ensures ends { EndsWithStep core self.old self.new }
        ensures config { self.new.config ≡ self.old.config }
    {
        self.bench.step(core)
    }

    /// Makes the steps of a schedule, which names cores of the machine, and then lets the cores take steps in turn, from
    /// core 0, until all have ended.
    pub fn run(&mut self, schedule: &[StepItem])
        requires { NamesCores self.old.config.cores schedule.now }
        ensures runs { (image : Image) (script : List (List Line)) (run : List Made) → Stands image script run self.old → RunsOut image script (cores_by schedule.now) run self.new }
        ensures over { HaveAllEnded self.new }
        ensures config { self.new.config ≡ self.old.config }
    {
        self.bench.follow(schedule);
        self.bench.run_out();
    }

    /// What the machine leaves, once every core has ended. Takes no memory.
    pub fn finish(self) -> Finished
        requires { HaveAllEnded self }
        ensures left { (image : Image) (script : List (List Line)) (run : List Made) → Stands image script run self → result ≡ finished_run image run }
        ensures finished { (image : Image) (script : List (List Line)) (q : List ℕ) (count : ℕ) → Stands image script (run_by image script q count) self → IsFinishedBy image script q result }
    {
        self.bench.finish()
    }
}
