//! What a call leaves of the core that has made it.

ghost use Rattle.std.specs.Prelude.{◌≡◌, []};
ghost use Rattle.core_context.specs.Origins.{leaving_of, told, contexts_by};
ghost use Rattle.core_context.specs.Lines.{pc_by, reg_by};
ghost use Rattle.core_machine.specs.Own.{ok_by, changed_by, left_by, with_current};

use crate::own::Own;
use core_access::Space;
use core_context::{After, Contexts, Leaving, Origin};
use mon_types::{Call, Mode, Reply};

/// How the call leaves an enclave, if it leaves one.
fn leaving_of(origin: Origin, call: &Call) -> Leaving
    ensures { result ≡ leaving_of origin call.now }
{
    match *call {
        Call::Aex { saved } => Leaving::Aex {
            cause: saved[32],
            value: origin.exit_value(),
        },
        _ => Leaving::Exit,
    }
}

/// Tells guest code what its call did to the core, and the reply. Who else calls is told nothing.
fn tell(contexts: &mut Contexts, origin: Origin, change: &After, reply: &Reply)
    ensures { contexts.new ≡ told origin change.now reply.now contexts.old }
{
    match origin {
        Origin::Guest => contexts.answer(change, reply),
        Origin::Line | Origin::Machine { .. } => {}
    }
}

/// Takes in what a call did to the core, and tells the reply.
fn change_contexts(
    contexts: &mut Contexts,
    origin: Origin,
    call: &Call,
    change: &After,
    reply: &Reply,
)
    ensures { contexts.new ≡ contexts_by origin call.now change.now reply.now contexts.old }
{
    contexts.change(change, leaving_of(origin, call));
    tell(contexts, origin, change, reply);
}

impl Own {
    /// Forgets the translations.
    fn forget(&mut self)
        ensures { self.new ≡ record self.old { cache = [] } }
    {
        self.cache.clear();
    }

    /// Takes in Ok of a call, but for the contexts.
    fn take_ok(&mut self, origin: Origin, call: &Call)
        ensures { self.new ≡ ok_by origin call.now self.old }
    {
        match *call {
            Call::Flush | Call::Exit | Call::Aex { .. } => self.forget(),
            Call::Enter { .. } => {
                self.by_line = origin.is_line();
                self.forget();
            }
            Call::SetSatp { v } => {
                self.satp = v;
                self.forget();
            }
            _ => {}
        }
    }

    /// Takes in which enclave the core has entered, or that it has left one.
    fn take_change(&mut self, change: &After)
        ensures { self.new ≡ changed_by change.now self.old }
    {
        match *change {
            After::Entered {
                base,
                size,
                root,
                ..
            } => self.space = Space { base, size, root },
            After::Left => self.pending = None,
            _ => {}
        }
    }

    /// Takes in a call that is over: what it did to the core, and its reply.
    pub fn leave(&mut self, origin: Origin, call: &Call, change: &After, reply: &Reply)
        ensures { self.new ≡ left_by origin call.now change.now reply.now self.old }
    {
        change_contexts(&mut self.contexts, origin, call, change, reply);
        self.take_change(change);
        if reply.is_ok() {
            self.take_ok(origin, call);
        }
    }

    /// The line `pc`: sets the pc, for the OS alone.
    pub fn set_pc(&mut self, pc: u64)
        ensures { self.new ≡ with_current self.old (pc_by self.old.mode self.old.contexts.current pc) }
    {
        if self.mode == Mode::Os {
            self.contexts.current.pc = pc;
        }
    }

    /// The line `reg`: sets a register, for the OS alone.
    pub fn set_reg(&mut self, x: u8, value: u64)
        ensures { self.new ≡ with_current self.old (reg_by self.old.mode self.old.contexts.current x value) }
    {
        if self.mode == Mode::Os {
            self.contexts.current.set(x, value);
        }
    }
}
