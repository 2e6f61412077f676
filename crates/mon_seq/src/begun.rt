//! A call that was begun.

ghost use Rattle.std.specs.Prelude.{◌≡◌, ⊤, []};
ghost use Rattle.mon_model.specs.Tries.{tried_set};

use lock_plan::Held;
use mon_types::{Reply, Tried};

/// What is known of a call once the records of all that it tries were gathered. One value serves for one
/// call after the other.
#[derive(Debug, Drop)]
pub struct Begun {
    /// What the call answers.
    pub reply: Reply,
    /// Whether it goes on to the page-table entries on its path: it loads an enclave, it is not refused
    /// before any object is tried, and the records of what it tries do not refuse it.
    pub reads_ptes: bool,
    /// The objects that it tries; none where it is refused before.
    pub tried: Tried,
    /// The records of these objects.
    pub held: Held,
}

/// No object.
pub fn nothing_tried() -> Tried
    ensures { result ≡ tried_set [] }
{
    Tried {
        enclaves: 0,
        threads: 0,
        regions: 0,
        cells: 0,
    }
}

impl Begun {
    /// A value to begin calls in.
    pub fn new() -> Begun {
        Begun {
            reply: Reply::Unsupported,
            reads_ptes: false,
            tried: nothing_tried(),
            held: Held::new(),
        }
    }
}

impl Default for Begun {
    ghost is_default = { λ b. ⊤ };

    fn default() -> Begun {
        Begun::new()
    }
}
