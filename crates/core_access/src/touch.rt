//! The touches of a core since its last clear.

ghost use Rattle.std.specs.Prelude.{◌≡◌, ◌<◌, [], not, length, IfOk};
ghost use Rattle.mon_types.specs.Budgets.{event_budget};
ghost use Rattle.core_access.specs.Touched.{is_touched, touched};

use mon_types::EVENT_BUDGET;
use std::alloc::{AllocError, Global};
use std::marker::Model;

/// A period of a region, the one since this ticket, at which a look was good.
#[derive(Clone, Copy, Debug, PartialEq, Eq)]
pub struct Touch {
    pub region: u8,
    pub since: u32,
}

/// The touches since the last clear, with room for as many as a core may log, taken when the list was made.
/// Contracts see the list of the touches, the oldest first.
#[derive(Debug, Drop)]
pub struct Touches {
    touches: Vec<Touch>,
}

impl Model for Touches {
    ghost use Rattle.std.specs.Prelude.{◌≤◌, List, vec_capacity};
    ghost use Rattle.mon_types.specs.Budgets.{event_budget};
    ghost use Rattle.core_access.specs.declared.touch.Touch.{Touch};

    ghost Value = { List Touch };

    ghost view = { λ t. t.touches.items };

    ghost invariant = { λ t. event_budget ≤ vec_capacity t.touches };
}

impl Touches {
    /// No touches.
    pub fn new(alloc: Global) -> Result<Touches, AllocError>
        ensures { IfOk result (λ t. t ≡ []) }
    {
        Ok(Touches {
            touches: Vec::with_capacity(alloc, EVENT_BUDGET as usize)?,
        })
    }

    /// Whether a period was touched.
    pub fn has(&self, region: u8, since: u32) -> bool
        ensures { result ≡ is_touched self.now region since }
    {
        for touch in &self.touches {
            if touch.region == region && touch.since == since {
                return true;
            }
        }
        false
    }

    /// Takes in a good look at a period, and answers whether it is the first, which is a touch. Takes no memory.
    pub fn add(&mut self, region: u8, since: u32) -> bool
        requires { length self.old < event_budget }
        ensures touches { self.new ≡ touched self.old region since }
        ensures first { result ≡ not (is_touched self.old region since) }
    {
        if self.has(region, since) {
            return false;
        }
        self.touches.push_reserved(Touch { region, since });
        true
    }

    /// Forgets all touches. Keeps the room.
    pub fn clear(&mut self)
        ensures { self.new ≡ [] }
    {
        self.touches.clear();
    }
}
