//! The machine of an image before its first step.

ghost use Rattle.std.specs.Prelude.{◌≡◌, ◌<◌, [], length, IfOk};
ghost use Rattle.core_behaviour.specs.Core.{start_at};
ghost use Rattle.core_behaviour.specs.Lines.{core_behaviour};
ghost use Rattle.core_behaviour.specs.Runs.{start_words};
ghost use Rattle.core_machine.specs.Kept.{IsSound};
ghost use Rattle.core_machine.specs.Follows.{Follows};
ghost use Rattle.core_machine.specs.Start.{AreLines, IsGiven, AreAtStart};

use crate::machine::CoreMachine;
use crate::own::{Counts, Own};
use crate::progress::Progress;
use crate::work::Work;
use call_machine::CallMachine;
use core_access::Space;
use core_context::Contexts;
use image_memory::start_memory;
use mon_types::{Call, Config, Image, Items, Line, Mode, Script, Start};
use std::alloc::{AllocError, Global};
use tlb::Tlb;

/// No events and no answers.
const NOTHING: Counts = Counts {
    events: 0,
    answers: 0,
};

/// The addresses of a core that is inside no enclave.
const NOWHERE: Space = Space {
    base: 0,
    size: 0,
    root: 0,
};

/// A machine before its first step: its configuration, the words of DRAM, and its cores.
#[derive(Debug, Drop)]
pub struct Machine {
    pub config: Config,
    pub dram: Items<u64>,
    pub cores: Items<CoreMachine>,
}

/// Where the core of this number starts.
fn start_of(starts: &[Start], number: u8) -> Start
    requires { number < length starts.now }
    ensures { result ≡ start_at starts.now number }
{
    starts[usize::from(number)]
}

impl Progress {
    /// The core of this number at the start of the machine of an image, with the lines of its script.
    pub(crate) fn start(image: &Image, number: u8, lines: Items<Line>) -> Progress
        requires core { number < image.now.config.cores }
        requires starts { length image.now.starts ≡ image.now.config.cores }
        requires lines { AreLines lines }
        ensures sound { IsSound result }
        ensures number { result.own.number ≡ number }
        ensures follows { Follows result (core_behaviour image.now number lines) [] }
    {
        let config = image.config;
        let _cores = config.cores();
        let start = start_of(image.starts.as_slice(), number);
        let own = Own {
            config,
            number,
            contexts: Contexts::begin(number, &start),
            satp: 0,
            space: NOWHERE,
            by_line: false,
            cache: Tlb::new(),
            pending: None,
            mode: Mode::Os,
            serial: 0,
            counts: NOTHING,
        };
        // No call is made yet: it stands for none.
        let call = CallMachine::begin(&config, number, 0, Mode::Os, Call::Flush, 0);
        Progress {
            lines,
            at: 0,
            own,
            work: Work::Begins,
            call,
            begun: NOTHING,
        }
    }
}

impl Machine {
    /// The machine of an image, each core with its lines, and none has made a move. Takes all the memory that steps
    /// will need; the only error is the want of it.
    pub fn new(alloc: Global, image: &Image, script: Script) -> Result<Machine, AllocError>
        requires { IsGiven image.now script.cores }
        ensures config { IfOk result (λ m. m.config ≡ image.now.config) }
        ensures dram { IfOk result (λ m. m.dram ≡ start_words image.now) }
        ensures count { IfOk result (λ m. length m.cores ≡ image.now.config.cores) }
        ensures cores { IfOk result (λ m. AreAtStart image.now script.cores 0 m.cores) }
    {
        let memory = start_memory(alloc, image)?;
        let count = image.config.cores();
        let mut cores = Vec::with_capacity(alloc, usize::from(count))?;
        for lines in script.cores.into_vec() {
            let number = cores.len() as u8;
            cores.push_reserved(CoreMachine::start(image, number, lines));
        }
        Ok(Machine {
            config: image.config,
            dram: memory.into_items(),
            cores: Items::from_vec(cores),
        })
    }
}
