//! The machine with one core.

ghost use Rattle.std.specs.Prelude.{◌≡◌, ◌<◌, [], vec_len, vec_capacity, IfOk};
ghost use Rattle.mon_facts.specs.Tables.{AreTables};
ghost use Rattle.solo.specs.Given.{first_start, IsOneImage};
ghost use Rattle.solo.specs.Core.{core_start, mode_now};
ghost use Rattle.solo.specs.Solo.{finished_run};

use crate::answers::Answers;
use crate::guest::Guest;
use core_context::Contexts;
use dram_map::Memory;
use hist::{Finished, Log};
use image_memory::start_memory;
use mon_seq::{Begun, Monitor};
use mon_types::{Config, EVENT_BUDGET, Image, Items, Mode, Start};
use std::alloc::{AllocError, Global};
use std::marker::Model;

/// A machine with one core: its monitor, and how many calls were made; the core's pc and registers, and
/// those of the OS, which are kept while the core is inside an enclave; what only accesses and guest code
/// use; DRAM; what looks and loads gave the core, and its log; and where calls are begun.
#[derive(Debug, Drop)]
pub struct OneCore {
    pub config: Config,
    pub monitor: Monitor,
    pub made: u32,
    pub contexts: Contexts,
    pub guest: Guest,
    pub memory: Memory,
    pub answers: Answers,
    pub log: Log,
    pub begun: Begun,
}

impl Model for OneCore {
    ghost use Rattle.solo.specs.Core.{Core};
    ghost use Rattle.solo.specs.Kept.{IsSoundMachine};

    ghost Value = { Core };

    ghost view = { λ m. record { state = m.monitor.state; made = m.made; contexts = m.contexts; guest = m.guest; words = m.memory; answers = m.answers; log = m.log.events } };

    ghost invariant = { λ m. IsSoundMachine m.config m.monitor m.made m.guest.touches m.memory m.log };
}

/// Where core 0 starts.
fn start_of(image: &Image) -> Start
    ensures { result ≡ first_start image.now.starts }
{
    match image.starts.as_slice() {
        [] => Start { pc: 0, sp: 0 },
        [start, ..] => *start,
    }
}

impl OneCore {
    /// The machine of an image at its start. Takes all the memory that its lines will need.
    pub fn new(alloc: Global, image: &Image) -> Result<OneCore, AllocError>
        requires { IsOneImage image.now }
        ensures { IfOk result (λ m. m ≡ core_start image.now) }
    {
        let config = image.config;
        let monitor = Monitor::new(alloc, config)?;
        let memory = start_memory(alloc, image)?;
        let guest = Guest::new(alloc)?;
        let answers = Answers::new(alloc)?;
        let log = Log::new(alloc, EVENT_BUDGET)?;
        Ok(OneCore {
            config,
            monitor,
            made: 0,
            contexts: Contexts::begin(0, &start_of(image)),
            guest,
            memory,
            answers,
            log,
            begun: Begun::new(),
        })
    }

    /// For whom the core runs.
    pub fn mode(&self) -> Mode
        ensures { result ≡ mode_now self.now }
    {
        self.monitor.modes()[0]
    }

    /// What the machine leaves. Takes no memory: the lists have room for the one log, and for the one
    /// list of answers.
    pub fn finish(self, mut logs: Vec<Log>, mut answers: Vec<Items<u64>>) -> Finished
        requires no_logs { logs.items ≡ [] }
        requires log_room { vec_len logs < vec_capacity logs }
        requires no_answers { answers.items ≡ [] }
        requires answer_room { vec_len answers < vec_capacity answers }
        ensures left { result ≡ finished_run self }
        ensures sound { AreTables self.state }
    {
        logs.push_reserved(self.log);
        answers.push_reserved(self.answers.into_items());
        let tables = self.monitor.into_tables();
        Finished {
            config: self.config,
            logs: Items::from_vec(logs),
            answers: Items::from_vec(answers),
            regions: tables.regions,
            enclaves: tables.enclaves,
            threads: tables.threads,
            flushed: tables.flushed,
            modes: tables.modes,
            words: self.memory.into_items(),
        }
    }
}
