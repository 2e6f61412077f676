//! The touches of a core since its last clearing entry.

ghost use Rattle.std.specs.Prelude.{◌≡◌, [], ◌∷◌, ◌++◌, OnOk};
ghost use Rattle.report_check.specs.Holds.{is_held, touch_of};

use std::alloc::{AllocError, Global};
use std::marker::Model;

/// A touch of a period of a region, the one since this ticket.
#[derive(Clone, Copy, Debug, PartialEq, Eq)]
pub struct Touch {
    pub region: u8,
    pub since: u32,
}

/// The touches that have no clearing entry behind them, which contracts see as their list. Safe touches of two periods
/// of one region have a clearing entry between them, so there are never more than regions.
#[derive(Debug, Drop)]
pub struct Holds {
    touches: Vec<Touch>,
}

impl Model for Holds {
    ghost use Rattle.std.specs.Prelude.{List};
    ghost use Rattle.report_check.specs.declared.holds.Touch.{Touch};

    ghost Value = { List Touch };

    ghost view = { λ h. h.touches.items };
}

impl Holds {
    /// No touches.
    pub fn new(alloc: Global) -> Holds
        ensures { result ≡ [] }
    {
        Holds {
            touches: Vec::new(alloc),
        }
    }

    /// Whether a period is touched.
    pub fn has(&self, region: u8, since: u32) -> bool
        ensures { result ≡ is_held self.now region since }
    {
        for touch in &self.touches {
            if touch.region == region && touch.since == since {
                return true;
            }
        }
        false
    }

    /// Takes in a touch.
    pub fn add(&mut self, region: u8, since: u32) -> Result<(), AllocError>
        ensures { OnOk result (self.new ≡ self.old ++ touch_of region since ∷ []) }
    {
        self.touches.push(Touch { region, since })?;
        Ok(())
    }

    /// Forgets all touches.
    pub fn clear(&mut self)
        ensures { self.new ≡ [] }
    {
        self.touches.clear();
    }
}
