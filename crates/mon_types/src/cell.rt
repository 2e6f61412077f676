//! The rows of words that hold the cells of cores.

ghost use Rattle.std.specs.Prelude.{◌≡◌, [], ◌∷◌};
ghost use Rattle.mon_types.specs.Cells.{cell_from};

use crate::words::u32_of;

/// The ticket of a core's last flush that the word of its cell holds; 0 where it is no ticket.
#[tactic(auto, unfolding(crate::specs::Cells::cell_from))]
pub fn cell_of(word: u64) -> u32
    ensures { result ≡ cell_from (word ∷ []) }
{
    u32_of(word)
}
