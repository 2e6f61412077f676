//! The objects that a call tries, up to one of them.

ghost use Rattle.std.specs.Prelude.{◌≡◌, ◌<◌, None};
ghost use Rattle.std.specs.Bool.{Decides};
ghost use Rattle.mon_model.specs.State.{mode_of};
ghost use Rattle.mon_model.specs.Early.{early};
ghost use Rattle.mon_model.specs.Tries.{tries};
ghost use Rattle.mon_facts.specs.Tables.{AreTables};
ghost use Rattle.lock_plan.specs.Records.{nothing_held};
ghost use Rattle.mon_seq.specs.UpTo.{IsFrontTo};

use crate::begun::nothing_tried;
use crate::state::MonitorState;
use lock_plan::{Held, add_tried, next, refuse_early};
use mon_types::{Call, Mode, ObjectId, Tried};

/// Whether this is the lock, and these are the sets.
fn is_there(object: ObjectId, lock: ObjectId, tried: &Tried, wanted: &Tried) -> bool
    ensures { Decides result ((object ≡ lock) × (tried.now ≡ wanted.now)) }
{
    object == lock && *tried == *wanted
}

impl MonitorState {
    /// Whether what a call tries which was not refused early, up to this lock, is in these sets.
    fn gather_to(
        &self,
        core: u8,
        mode: Mode,
        call: &Call,
        lock: ObjectId,
        wanted: &Tried,
        held: &mut Held,
    ) -> bool
        requires tables { AreTables self.now }
        requires core { core < self.now.shape.cores }
        requires mode { mode ≡ mode_of self.now core }
        requires early { early self.now.shape mode call.now ≡ None }
        requires none_held { held.old ≡ nothing_held }
        ensures { Decides result (IsFrontTo lock (tries self.now core call.now) wanted.now) }
    {
        let mut tried = nothing_tried();
        while let Some(object) = next(&self.config, core, mode, call, held) {
            self.take(object, held);
            add_tried(&mut tried, object);
            let there = is_there(object, lock, &tried, wanted);
            if there {
                return true;
            }
        }
        false
    }

    /// Whether what a call by a core of the machine would try, up to this lock, is in these sets.
    pub fn tries_up_to(&self, core: u8, call: &Call, lock: ObjectId, wanted: &Tried) -> bool
        requires tables { AreTables self.now }
        requires core { core < self.now.shape.cores }
        ensures { Decides result (IsFrontTo lock (tries self.now core call.now) wanted.now) }
    {
        let mode = self.mode(core);
        if refuse_early(&self.config, mode, call).is_some() {
            return false;
        }
        let mut held = Held::new();
        self.gather_to(core, mode, call, lock, wanted, &mut held)
    }
}
