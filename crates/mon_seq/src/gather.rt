//! The records of what a call tries, from the tables.

ghost use Rattle.std.specs.Prelude.{◌≡◌, ◌<◌, [], None};
ghost use Rattle.mon_model.specs.State.{mode_of};
ghost use Rattle.mon_model.specs.Early.{early};
ghost use Rattle.mon_model.specs.Tries.{tries, tried_set};
ghost use Rattle.mon_facts.specs.Tables.{AreTables};
ghost use Rattle.lock_plan.specs.Objects.{HasObject};
ghost use Rattle.lock_plan.specs.Records.{nothing_held, records_of, with_record, HasRoom};

use crate::state::MonitorState;
use lock_plan::{Held, add_tried, next};
use mon_types::{Call, Mode, ObjectId, Tried};

impl MonitorState {
    /// Adds the record of an object behind those of its kind.
    pub fn take(&self, object: ObjectId, held: &mut Held)
        requires tables { AreTables self.now }
        requires object { HasObject self.now.shape object }
        requires room { HasRoom held.old object }
        ensures { held.new ≡ with_record self.now object held.old }
    {
        match object {
            ObjectId::Enclave(e) => held.enclaves.push((e, self.enclaves[usize::from(e)])),
            ObjectId::Thread(t) => held.threads.push((t, self.threads[usize::from(t)])),
            ObjectId::Region(r) => held.regions.push((r, self.regions[usize::from(r)])),
            ObjectId::Cell(c) => held.cells.push((c, self.flushed[usize::from(c)])),
        }
    }

    /// Gathers the records of all that a call tries which was not refused early.
    pub fn gather(&self, core: u8, mode: Mode, call: &Call, tried: &mut Tried, held: &mut Held)
        requires tables { AreTables self.now }
        requires core { core < self.now.shape.cores }
        requires mode { mode ≡ mode_of self.now core }
        requires early { early self.now.shape mode call.now ≡ None }
        requires none_tried { tried.old ≡ tried_set [] }
        requires none_held { held.old ≡ nothing_held }
        ensures tried { tried.new ≡ tried_set (tries self.now core call.now) }
        ensures held { held.new ≡ records_of self.now (tries self.now core call.now) }
    {
        while let Some(object) = next(&self.config, core, mode, call, held) {
            self.take(object, held);
            add_tried(tried, object);
        }
    }
}
