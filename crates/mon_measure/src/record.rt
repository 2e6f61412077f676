//! The measurement that the record of an enclave holds.

ghost use Rattle.std.specs.Prelude.{◌≡◌};
ghost use Rattle.mon_model.specs.Measure.{measure_created, measure_with};
ghost use Rattle.mon_measure.specs.Chain.{item_of};

use crate::chain::{extend, start};
use crate::item::Item;
use crate::words::{to_bytes, to_words};

/// The words of a new enclave's measurement: the chain with its first item alone.
#[tactic(auto, unfolding(mon_model::specs::Measure::measure_created))]
pub fn measure_created(base: u64, size: u64) -> [u64; 4]
    ensures { result ≡ measure_created base size }
{
    to_words(&extend(&start(), &Item::Create { base, size }))
}

/// The words of a measurement with one more item.
#[tactic(auto, unfolding(mon_model::specs::Measure::measure_with))]
pub fn measure_with(words: &[u64; 4], item: &Item) -> [u64; 4]
    ensures { result ≡ measure_with words.now (item_of item.now) }
{
    to_words(&extend(&to_bytes(words), item))
}
