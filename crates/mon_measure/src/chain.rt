//! The chain of digests.

ghost use Rattle.std.specs.Prelude.{◌≡◌, ◌∷◌, ◌++◌};
ghost use Rattle.mon_model.specs.Measure.{number_bytes, item_bytes, chain_start, extend};
ghost use Rattle.mon_measure.specs.Chain.{item_of, Adds};

use crate::item::Item;
use byteorder::{ByteOrder, LittleEndian};
use sha2::{Digest, Sha256};

/// Where every measurement begins: 32 zeros.
pub fn start() -> [u8; 32]
    ensures { result ≡ chain_start }
{
    [0; 32]
}

/// A tag and two fields, each field in 8 bytes, the lowest first.
fn fields(tag: u8, first: u64, second: u64) -> [u8; 17]
    ensures { result ≡ tag ∷ number_bytes first ++ number_bytes second }
{
    let mut bytes = [0; 17];
    bytes[0] = tag;
    LittleEndian::write_u64(&mut bytes[1..], first);
    LittleEndian::write_u64(&mut bytes[9..], second);
    bytes
}

/// Adds an item's tag and fields to the message.
fn add_item(hasher: &mut Sha256, item: &Item)
    ensures { Adds hasher.old hasher.new (item_bytes (item_of item.now)) }
{
    match *item {
        Item::Create { base, size } => hasher.update(&fields(1, base, size)),
        Item::Table { va, level } => hasher.update(&fields(2, va, level)),
        Item::Page { va, perms, digest } => {
            hasher.update(&fields(3, va, perms));
            hasher.update(&digest);
        }
        Item::Thread { entry, sp } => hasher.update(&fields(4, entry, sp)),
        Item::Init => hasher.update(&[5]),
    }
}

/// The measurement `m` with one more item: the SHA-256 digest of `m`, the item's tag and its fields.
#[tactic(auto, unfolding(mon_model::specs::Measure::extend))]
pub fn extend(m: &[u8; 32], item: &Item) -> [u8; 32]
    ensures { result ≡ extend m.now (item_of item.now) }
{
    let mut hasher = Sha256::new();
    hasher.update(m);
    add_item(&mut hasher, item);
    hasher.finalize()
}
