//! What is kept, beside the sink, of the bytes that were put.

ghost use Rattle.std.specs.Prelude.{ℕ, List};
ghost use Rattle.image_read.specs.Told.{Covers};

use sha2::{Digest, Sha256};

/// What is told each piece of a text that the sink has taken whole.
pub trait Tally {
    /// It was told these bytes, one piece after another.
    ghost told: { Self → List ℕ → Type 0 };

    /// Tells it the next piece.
    fn tell(&mut self, bytes: &[u8])
        ensures { Covers (told self.old) (told self.new) bytes.now };
}

/// Keeps nothing.
#[derive(Clone, Copy)]
pub struct NoTally;

impl Tally for NoTally {
    ghost use Rattle.std.specs.Prelude.{⊤};

    ghost told = { λ _ _. ⊤ };

    fn tell(&mut self, _bytes: &[u8]) {}
}

impl Tally for Sha256 {
    ghost use Rattle.sha2.specs.Hashers.{Holds256};

    ghost told = { λ s m. Holds256 s m };

    fn tell(&mut self, bytes: &[u8]) {
        self.update(bytes);
    }
}
