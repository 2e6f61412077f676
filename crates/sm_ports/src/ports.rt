//! The traits.

ghost use Rattle.std.specs.Prelude.{◌≡◌, ◌≤◌, ℕ, List, Option, IfOk, length};
ghost use Rattle.sm_ports.specs.Causes.{HasCause};
ghost use Rattle.sm_ports.specs.Contents.{ReadsAt, Puts};

use crate::failed::Failed;

/// Named files. No call changes them.
pub trait Depot {
    /// The bytes of the file of a name, where the depot tells them and the name is not missing.
    ghost contents: { Self → List ℕ → Option (List ℕ) };

    /// How many faults the depot has counted for a name.
    ghost faults: { Self → List ℕ → ℕ };

    /// Reads bytes of a file from the place `at` on, as many as the depot likes and `into` holds, and
    /// answers how many. For an `into` that is not empty it answers 0 only at or past the file's end.
    /// `Failed` comes only where the count of faults of `name` rose in this call; a missing name is a
    /// fault of that name.
    fn read_at(&mut self, name: &str, at: u64, into: &mut [u8]) -> Result<usize, Failed>
        ensures bound { IfOk result (λ n. n ≤ length into.new) }
        ensures bytes { ReadsAt (contents self.old name.now) at result into.new }
        ensures contents { contents self.new ≡ contents self.old }
        ensures cause { HasCause (faults self.old name.now) (faults self.new name.now) result }
        ensures later { (other : List ℕ) → faults self.old other ≤ faults self.new other };
}

/// Where bytes go.
pub trait Sink {
    /// The bytes that were taken, where the sink tells them.
    ghost taken: { Self → Option (List ℕ) };

    /// How many faults the sink has counted.
    ghost faults: { Self → ℕ };

    /// Takes bytes from the start of `bytes`, and answers how many: at least one, unless `bytes` is
    /// empty. `Failed` takes nothing, and comes only where the count of faults rose in this call.
    fn put(&mut self, bytes: &[u8]) -> Result<usize, Failed>
        ensures bound { IfOk result (λ n. n ≤ length bytes.now) }
        ensures bytes { Puts (taken self.old) (taken self.new) result bytes.now }
        ensures cause { HasCause (faults self.old) (faults self.new) result };
}

/// What is called round each monitor call of a running core: before it and after it, with the core's
/// number and the serial of the call.
pub trait Gate: Sync {
    fn before(&self, core: u8, serial: u32);

    fn after(&self, core: u8, serial: u32);
}

/// The gate that does nothing.
#[derive(Clone, Copy, Debug)]
pub struct OpenGate;

impl Gate for OpenGate {
    fn before(&self, _core: u8, _serial: u32) {}

    fn after(&self, _core: u8, _serial: u32) {}
}
