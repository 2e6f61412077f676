//! The digest of a page.

ghost use Rattle.std.specs.Prelude.{◌≡◌};
ghost use Rattle.mon_model.specs.Measure.{page_digest};

use byteorder::{ByteOrder, LittleEndian};
use mon_types::PAGE_WORDS;
use sha2::{Digest, Sha256};

/// How many bytes the words of a page have.
const BYTES: usize = 8 * PAGE_WORDS;

/// The SHA-256 digest of a page's 4,096 bytes, which are its words, each with its lowest byte first.
#[tactic(auto, unfolding(mon_model::specs::Measure::page_digest))]
pub fn page_digest(words: &[u64; PAGE_WORDS]) -> [u8; 32]
    ensures { result ≡ page_digest words.now }
{
    let mut bytes = [0; BYTES];
    LittleEndian::write_u64_into(words, &mut bytes);
    Sha256::digest(&bytes)
}
