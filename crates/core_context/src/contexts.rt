//! The two contexts of a core.

ghost use Rattle.std.specs.Prelude.{◌≡◌};
ghost use Rattle.core_context.specs.Changes.{begun_contexts, os_given_back, contexts_after};

use crate::after::After;
use crate::context::Context;
use mon_types::Start;

/// How an enclave is left: by its own exit, or by an exit that was forced on it, with its cause and value.
#[derive(Clone, Copy, Debug, PartialEq, Eq)]
pub enum Leaving {
    Exit,
    Aex { cause: u64, value: u64 },
}

/// The pc and registers that a core has now, and those of the OS, kept while it is inside an enclave.
#[derive(Clone, Copy, Debug, PartialEq, Eq)]
pub struct Contexts {
    pub current: Context,
    pub os: Context,
}

impl Contexts {
    /// A core at its start.
    pub fn begin(core: u8, start: &Start) -> Contexts
        ensures { result ≡ begun_contexts core start.now }
    {
        let context = Context::begin(core, start);
        Contexts {
            current: context,
            os: context,
        }
    }

    /// The OS's pc and registers, as they are given back to it.
    fn left(&self, leaving: Leaving) -> Context
        ensures { result ≡ os_given_back leaving self.now.os }
    {
        match leaving {
            Leaving::Exit => self.os.give_back(0, 0, 0),
            Leaving::Aex { cause, value } => self.os.give_back(1, cause, value),
        }
    }

    /// Takes in what a monitor call does to its core. `leaving` is how it leaves an enclave, if it leaves one.
    pub fn change(&mut self, after: &After, leaving: Leaving)
        ensures { self.new ≡ contexts_after self.old after.now leaving }
    {
        match *after {
            After::Nothing | After::Cleared => {}
            After::Entered {
                entry,
                sp,
                saved,
                ..
            } => {
                self.os = self.current;
                self.current = Context::enter(entry, sp, saved);
            }
            After::Left => self.current = self.left(leaving),
            After::Restored { saved } => self.current = Context::restore(&saved),
        }
    }
}
