//! What stands behind the first 16 bytes of an image: the starts, the segments and the digest.

ghost use Rattle.std.specs.Prelude.{◌≡◌, ◌+◌, ◌*◌, ◌/◌, ◌%◌, ◌^◌, ◌<◌, ◌≤◌, length, true, IfOk};
ghost use Rattle.dram_map.specs.Addresses.{dram_start};
ghost use Rattle.reader_answers.specs.Answers.{Gives};
ghost use Rattle.image_read.specs.Image.{segment_end};
ghost use Rattle.image_read.specs.Reading.{limit, start_at, starts_from, words_of, is_inside, placed_at, segment_at, segments_from, digest_from};

use crate::fault::ImageFault;
use crate::fields::{address_at, short, size_at, start_pc_at, u64_at, zero_u32_at};
use byteorder::{ByteOrder, LittleEndian};
use dram_map::{DRAM_START, page_start};
use mon_types::{Config, Items, Segment, Start};
use reader_answers::ParseError;
use sha2::{Digest, Sha256};
use std::alloc::{AllocError, Global};

/// How many bytes a core's start has, and how many stand before a segment's words.
const HEAD: usize = 16;

/// A core's start, which stands at `at`.
#[tactic(auto, unfolding(crate::specs::Reading::start_at))]
fn start_at(bytes: &[u8], at: usize) -> Result<Start, ImageFault>
    requires file { length bytes.now ≤ limit }
    requires place { at ≤ limit }
    ensures start { result ≡ start_at bytes.now at }
    ensures within { IfOk result (λ _. at + 16 ≤ length bytes.now) }
{
    let pc = start_pc_at(bytes, at)?;
    let sp = u64_at(bytes, at + 8)?;
    Ok(Start { pc, sp })
}

/// The starts of this many cores.
pub(crate) fn starts_of(
    alloc: Global,
    bytes: &[u8],
    cores: u8,
) -> Result<Items<Start>, ParseError<ImageFault>>
    requires file { length bytes.now ≤ limit }
    requires head { 16 ≤ length bytes.now }
    ensures starts { Gives (λ starts. starts) result (starts_from bytes.now 16 cores) }
    ensures within { IfOk result (λ _. 16 + 16 * cores ≤ length bytes.now) }
{
    let mut starts = Items::new(alloc);
    let mut at = HEAD;
    for _ in 0..cores {
        starts.push(start_at(bytes, at)?)?;
        at += HEAD;
    }
    Ok(starts)
}

/// So many words, which stand one after the other from the begin of the bytes on.
fn words_of(alloc: Global, bytes: &[u8], count: usize) -> Result<Items<u64>, AllocError>
    requires { 8 * count ≤ length bytes.now }
    ensures words { IfOk result (λ words. words ≡ words_of count bytes.now) }
    ensures count { IfOk result (λ words. length words ≡ count) }
{
    let mut words = vec![in alloc; 0u64; count]?;
    LittleEndian::read_u64_into(&bytes[..8 * count], &mut words);
    Ok(Items::from_vec(words))
}

/// Whether bytes from this address on, as many as `size` says, lie in DRAM.
fn is_inside(config: &Config, address: u64, size: u32) -> bool
    ensures inside { result ≡ is_inside config.now address size }
    ensures fits { result ≡ true → address + size < 2 ^ 64 }
{
    let end = page_start(config.total_pages());
    DRAM_START <= address && address <= end && u64::from(size) <= end - address
}

/// The address of a segment that lies in DRAM and begins at `place` or behind it.
fn placed(
    config: &Config,
    number: u16,
    place: u64,
    size: u32,
    address: u64,
) -> Result<u64, ImageFault>
    ensures address { result ≡ placed_at config.now number place size address }
    ensures fits { IfOk result (λ n. n + size < 2 ^ 64) }
{
    let segment = u32::from(number);
    if !is_inside(config, address, size) {
        return Err(ImageFault::OutOfRange { segment });
    }
    if address < place {
        return Err(ImageFault::Overlap { segment });
    }
    Ok(address)
}

/// The segment of this number, which stands at `at`. The one before it ends at the address `place`.
#[tactic(auto, unfolding(crate::specs::Reading::segment_at))]
fn segment_at(
    alloc: Global,
    bytes: &[u8],
    config: &Config,
    number: u16,
    place: u64,
    at: usize,
) -> Result<Segment, ParseError<ImageFault>>
    requires file { length bytes.now ≤ limit }
    requires place { at ≤ length bytes.now }
    ensures segment { Gives (λ s. s) result (segment_at config.now bytes.now number place at) }
    ensures within { IfOk result (λ s. at + 16 + 8 * length s.words ≤ length bytes.now) }
    ensures fits { IfOk result (λ s. segment_end s < 2 ^ 64) }
{
    let address = address_at(bytes, at)?;
    let size = size_at(bytes, at + 8)?;
    zero_u32_at(bytes, at + 12)?;
    let address = placed(config, number, place, size, address)?;
    let end = at + HEAD + size as usize;
    if bytes.len() < end {
        return Err(ParseError::Fault(short(bytes)));
    }
    let words = words_of(alloc, &bytes[at + HEAD..], size as usize / 8)?;
    Ok(Segment { address, words })
}

/// So many segments, the first of which stands at `at`, and the place behind them.
pub(crate) fn segments_of(
    alloc: Global,
    bytes: &[u8],
    config: &Config,
    count: u16,
    at: usize,
) -> Result<(Items<Segment>, usize), ParseError<ImageFault>>
    requires file { length bytes.now ≤ limit }
    requires place { at ≤ length bytes.now }
    ensures segments { Gives (λ x. (x.0, x.1)) result (segments_from config.now bytes.now 0 dram_start at count) }
    ensures within { IfOk result (λ x. x.1 ≤ length bytes.now) }
{
    let mut segments = Items::new(alloc);
    let mut at = at;
    let mut place = DRAM_START;
    for number in 0..count {
        let segment = segment_at(alloc, bytes, config, number, place, at)?;
        let size = 8 * segment.words.len();
        at += HEAD + size;
        place = segment.address + size as u64;
        segments.push(segment)?;
    }
    Ok((segments, at))
}

/// The place behind the digest, which stands at `at` in version 2 alone.
#[tactic(auto, unfolding(crate::specs::Reading::digest_from))]
pub(crate) fn digest_end(version: u8, bytes: &[u8], at: usize) -> Result<usize, ImageFault>
    requires file { length bytes.now ≤ limit }
    requires place { at ≤ length bytes.now }
    ensures end { result ≡ digest_from version bytes.now at }
    ensures within { IfOk result (λ end. end ≤ length bytes.now) }
{
    if version != 2 {
        return Ok(at);
    }
    let end = at + 32;
    if bytes.len() < end {
        return Err(short(bytes));
    }
    let digest = Sha256::digest(&bytes[..at]);
    if &bytes[at..end] == digest.as_slice() {
        Ok(end)
    } else {
        Err(ImageFault::BadDigest { at: at as u32 })
    }
}
