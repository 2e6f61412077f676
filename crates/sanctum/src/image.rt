//! The image that the words of an assembler text make.

ghost use Rattle.std.specs.Prelude.{◌≡◌, ◌≤◌, ◌<◌, ◌∷◌, [], length, replicate, IfOk};
ghost use Rattle.image_read.specs.Image.{IsImage};
ghost use Rattle.sanctum.specs.Packing.{word_limit, paired, packed_start, packed_segments, packed_image, version_for};

use dram_map::DRAM_START;
use mon_types::{Config, Image, Items, Segment, Start};
use std::alloc::{AllocError, Global};

/// How every core starts.
const START: Start = Start {
    pc: DRAM_START,
    sp: 0,
};

/// The most words of a text for a machine of this size: as many words of four bytes as DRAM holds.
pub fn word_limit(config: &Config) -> u32
    ensures { result ≡ word_limit config.now }
{
    1024 * u32::from(config.total_pages())
}

/// One or two words of four bytes as one of eight, the low one first.
#[tactic(auto, unfolding(crate::specs::Packing::paired))]
fn join_words(words: &[u32]) -> u64
    requires some { 0 < length words.now }
    requires few { length words.now ≤ 2 }
    ensures { paired words.now ≡ result ∷ [] }
{
    match words {
        [low, high, ..] => u64::from(*low) + (u64::from(*high) << 32),
        [low] => u64::from(*low),
        [] => 0,
    }
}

/// The words of eight bytes; behind an odd count stands a zero word.
fn pair_words(alloc: Global, words: &[u32]) -> Result<Items<u64>, AllocError>
    ensures { IfOk result (λ pairs. pairs ≡ paired words.now) }
{
    let mut pairs = Items::new(alloc);
    for pair in words.chunks(2) {
        pairs.push(join_words(pair))?;
    }
    Ok(pairs)
}

/// The segment of the words at the start of DRAM, where there are any.
fn packed_segments(alloc: Global, words: &[u32]) -> Result<Items<Segment>, AllocError>
    ensures { IfOk result (λ segments. segments ≡ packed_segments words.now) }
{
    let mut segments = Items::new(alloc);
    if !words.is_empty() {
        segments.push(Segment {
            address: DRAM_START,
            words: pair_words(alloc, words)?,
        })?;
    }
    Ok(segments)
}

/// The starts of so many cores.
fn packed_starts(alloc: Global, cores: u8) -> Result<Items<Start>, AllocError>
    ensures { IfOk result (λ starts. starts ≡ replicate cores packed_start) }
{
    Ok(Items::from_vec(vec![in alloc; START; usize::from(cores)]?))
}

/// The image of a machine of this size with the words at the start of DRAM, where every core starts.
pub fn packed_image(alloc: Global, config: Config, words: &[u32]) -> Result<Image, AllocError>
    requires { length words.now ≤ word_limit config }
    ensures image { IfOk result (λ image. image ≡ packed_image config words.now) }
    ensures valid { IfOk result (IsImage (version_for config)) }
{
    Ok(Image {
        config,
        starts: packed_starts(alloc, config.cores())?,
        segments: packed_segments(alloc, words)?,
    })
}
