//! What only accesses and guest code use of a core.

ghost use Rattle.std.specs.Prelude.{◌≡◌, ◌≤◌, [], length, IfOk};
ghost use Rattle.solo.specs.Core.{guest_start, without_translations, cleared};
ghost use Rattle.core_context.specs.Origins.{is_by_line};
ghost use Rattle.solo.specs.Calls.{guest_after};

use core_access::Touches;
use core_context::Origin;
use mon_types::Call;
use std::alloc::{AllocError, Global};
use tlb::Tlb;

/// What only accesses and guest code use of a core: how addresses are translated for the OS, whether a line
/// of the script made the last enter, and the translations and the touches since the last clear.
#[derive(Debug, Drop)]
pub struct Guest {
    pub satp: u64,
    pub by_line: bool,
    pub cache: Tlb,
    pub touches: Touches,
}

impl Guest {
    /// At the start.
    pub fn new(alloc: Global) -> Result<Guest, AllocError>
        ensures { IfOk result (λ g. g ≡ guest_start) }
    {
        Ok(Guest {
            satp: 0,
            by_line: false,
            cache: Tlb::new(),
            touches: Touches::new(alloc)?,
        })
    }

    /// Forgets the translations and the touches.
    fn clear(&mut self)
        ensures { self.new ≡ cleared self.old }
    {
        self.cache.clear();
        self.touches.clear();
    }

    /// Takes in Ok of an enter.
    fn enter(&mut self, by_line: bool)
        ensures { self.new ≡ record (cleared self.old) { by_line = by_line } }
    {
        self.clear();
        self.by_line = by_line;
    }

    /// Takes in Ok of a set_satp.
    fn set_satp(&mut self, satp: u64)
        ensures { self.new ≡ record (cleared self.old) { satp = satp } }
    {
        self.clear();
        self.satp = satp;
    }

    /// Takes in a call that answered Ok.
    pub fn take_in(&mut self, origin: Origin, call: &Call)
        ensures guest { self.new ≡ guest_after origin call.now self.old }
        ensures touches { length self.new.touches ≤ length self.old.touches }
    {
        match *call {
            Call::Flush | Call::Exit | Call::Aex { .. } => self.clear(),
            Call::Enter { .. } => self.enter(origin.is_line()),
            Call::SetSatp { v } => self.set_satp(v),
            _ => {}
        }
    }
}
