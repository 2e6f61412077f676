//! The words and the cores together.

ghost use Rattle.std.specs.Prelude.{◌≡◌, ◌+◌, ◌<◌, ◌≤◌, ℕ, List, true, false, if◌then◌else◌, [], ◌∷◌, replicate, IfOk};
ghost use Rattle.std.specs.List.{range_with_len};
ghost use Rattle.mon_types.specs.declared.image.Image.{Image};
ghost use Rattle.mon_types.specs.declared.script.Line.{Line};
ghost use Rattle.protocol.specs.Runs.{Made};
ghost use Rattle.core_behaviour.specs.Runs.{finished_run};
ghost use Rattle.lab.specs.Stands.{Stands, IsReached, IsMade, IsNew};
ghost use Rattle.lab.specs.Rounds.{NamesCores, cores_by, HaveAllEnded, all_left, GoesUnder, AnswersStep, EndsWithStep, RunsOut};

use crate::lab_core::LabCore;
use crate::room::Room;
use core_machine::Machine;
use hist::Finished;
use mon_types::{Config, StepItem};
use std::alloc::{AllocError, Global};
use word_list::WordList;

/// A machine: its words and its cores, and room for what they leave.
#[derive(Debug, Drop)]
pub struct Bench {
    pub config: Config,
    pub words: WordList,
    pub cores: Vec<LabCore>,
    pub room: Room,
}

impl Bench {
    /// The machine before its first step, with all the memory that it will need.
    pub fn new(alloc: Global, machine: Machine) -> Result<Bench, AllocError>
        requires { IsNew machine }
        ensures stands { (image : Image) (script : List (List Line)) → IsMade image script machine → IfOk result (Stands image script []) }
        ensures config { IfOk result (λ b. b.config ≡ machine.config) }
    {
        let Machine {
            config,
            dram,
            cores: machines,
        } = machine;
        let words = WordList::new(alloc, &config, dram.into_vec())?;
        let room = Room::new(alloc, machines.len())?;
        let mut cores = Vec::with_capacity(alloc, machines.len())?;
        for machine in machines.into_vec() {
            let core = LabCore::new(alloc, machine)?;
            cores.push_reserved(core);
        }
        Ok(Bench {
            config,
            words,
            cores,
            room,
        })
    }

    /// Lets a core take a step.
    pub fn step(&mut self, core: u8) -> bool
        requires reached { IsReached self.old }
        requires core { core < self.old.config.cores }
        ensures goes { GoesUnder (λ image. core ∷ []) self.old self.new }
        ensures reached { IsReached self.new }
        ensures answers { AnswersStep core self.old result }
        ensures ends { EndsWithStep core self.old self.new }
        ensures left { all_left self.new + (if result then 1 else 0) ≤ all_left self.old }
        ensures stays { result ≡ false → self.new.cores.items ≡ self.old.cores.items }
        ensures config { self.new.config ≡ self.old.config }
    {
        let stepping = &mut self.cores[usize::from(core)];
        stepping.step(core, &mut self.words)
    }

    /// Lets a core take so many steps, or as many as there are up to its end.
    fn take_steps(&mut self, core: u8, count: u32)
        requires reached { IsReached self.old }
        requires core { core < self.old.config.cores }
        ensures goes { GoesUnder (λ image. replicate count core) self.old self.new }
        ensures reached { IsReached self.new }
        ensures config { self.new.config ≡ self.old.config }
    {
        for _made in 0..count {
            if !self.step(core) {
                return;
            }
        }
    }

    /// Makes the steps of a schedule.
    pub fn follow(&mut self, schedule: &[StepItem])
        requires reached { IsReached self.old }
        requires cores { NamesCores self.old.config.cores schedule.now }
        ensures goes { GoesUnder (λ image. cores_by schedule.now) self.old self.new }
        ensures reached { IsReached self.new }
        ensures config { self.new.config ≡ self.old.config }
    {
        for item in schedule {
            self.take_steps(item.core, item.count);
        }
    }

    /// Lets each core take a step, from core 0 on. How many of them had not ended.
    fn round(&mut self) -> u32
        requires { IsReached self.old }
        ensures goes { GoesUnder (λ image. range_with_len 0 image.config.cores) self.old self.new }
        ensures reached { IsReached self.new }
        ensures left { all_left self.new + result ≤ all_left self.old }
        ensures over { result ≡ 0 → HaveAllEnded self.new }
        ensures config { self.new.config ≡ self.old.config }
    {
        let mut made = 0;
        for core in 0..self.config.cores() {
            made += u32::from(self.step(core));
        }
        made
    }

    /// Lets the cores take steps in turn until all have ended.
    pub fn run_out(&mut self)
        requires { IsReached self.old }
        ensures runs { (image : Image) (script : List (List Line)) (run : List Made) → Stands image script run self.old → RunsOut image script [] run self.new }
        ensures reached { IsReached self.new }
        ensures over { HaveAllEnded self.new }
        ensures config { self.new.config ≡ self.old.config }
    {
        'rounds: loop {
            if self.round() == 0 {
                return;
            }
        }
    }

    /// What the machine leaves. Takes no memory.
    pub fn finish(self) -> Finished
        requires { IsReached self }
        ensures { (image : Image) (script : List (List Line)) (run : List Made) → Stands image script run self → result ≡ finished_run image run }
    {
        let Bench {
            config,
            words,
            cores,
            room,
        } = self;
        let left = room.fill(cores);
        let tables = words.into_tables();
        Finished {
            config,
            logs: left.logs,
            answers: left.answers,
            regions: tables.regions,
            enclaves: tables.enclaves,
            threads: tables.threads,
            flushed: tables.flushed,
            modes: left.modes,
            words: tables.words,
        }
    }
}
