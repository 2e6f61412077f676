//! Sets of tried objects.

ghost use Rattle.std.specs.Prelude.{◌≡◌, ◌<◌, ◌^◌};
ghost use Rattle.mon_model.specs.Tries.{add_tried};
ghost use Rattle.lock_plan.specs.Objects.{HasPlace};

use mon_types::{ObjectId, Tried, bit};

/// Adds an object that is behind all of its kind in the sets.
#[tactic(auto, using(std::proofs::lemmas::Nat::pow_below))]
pub fn add_tried(tried: &mut Tried, object: ObjectId)
    requires { HasPlace tried.old object }
    ensures { tried.new ≡ add_tried object tried.old }
{
    match object {
        ObjectId::Enclave(e) => tried.enclaves += bit(e) as u8,
        ObjectId::Thread(t) => tried.threads += bit(t) as u16,
        ObjectId::Region(r) => tried.regions += bit(r),
        ObjectId::Cell(c) => tried.cells += bit(c) as u16,
    }
}
