//! The writers. A text goes out in pieces of at most 4,096 bytes, so that no memory is taken.

ghost use Rattle.std.specs.Prelude.{◌≡◌, ◌≤◌, length, OnOk, OnErr};
ghost use Rattle.std.specs.List.{flat_map, AllByRecursion};
ghost use Rattle.std.specs.Io.KnownBytes.{Appends};
ghost use Rattle.sm_ports.specs.Causes.{HasCause};
ghost use Rattle.sm_ports.specs.Contents.{AppendsPart};
ghost use Rattle.image_read.specs.Image.{log2_of, head_text, start_text, segment_head, words_text, segment_text, body_text, image_text, IsShort, IsImage};
ghost use Rattle.image_read.specs.Told.{Covers};
ghost use Rattle.text_out.specs.Written.{Writes};

use crate::tally::{NoTally, Tally};
use byteorder::{ByteOrder, LittleEndian};
use mon_types::{Config, Image, Segment, Start};
use sha2::{Digest, Sha256};
use sm_ports::{Failed, Sink};
use text_out::put_piece;

/// How many words are put as one piece.
const BLOCK: usize = 512;

/// The base-two logarithm of a number of regions or pages.
fn log2_of(n: u8) -> u8
    ensures { result ≡ log2_of n }
{
    match n {
        2 => 1,
        4 => 2,
        8 => 3,
        16 => 4,
        32 => 5,
        64 => 6,
        _ => 0,
    }
}

/// The bytes before the starts.
#[tactic(auto, unfolding(crate::specs::Image::magic))]
fn head_of(version: u8, config: &Config, segments: u16) -> [u8; 16]
    ensures { result ≡ head_text version config.now segments }
{
    let [low, high] = segments.to_le_bytes();
    [
        b'S',
        b'A',
        b'N',
        b'C',
        b'T',
        b'U',
        b'M',
        version,
        config.cores(),
        log2_of(config.regions()),
        log2_of(config.pages()),
        config.shift(),
        low,
        high,
        0,
        0,
    ]
}

/// The bytes of a core's start.
fn bytes_of_start(start: &Start) -> [u8; 16]
    ensures { result ≡ start_text start.now }
{
    let mut bytes = [0; 16];
    LittleEndian::write_u64(&mut bytes, start.pc);
    LittleEndian::write_u64(&mut bytes[8..], start.sp);
    bytes
}

/// The bytes before a segment's words.
fn head_of_segment(segment: &Segment) -> [u8; 16]
    requires { IsShort segment.now }
    ensures { result ≡ segment_head segment.now }
{
    let mut bytes = [0; 16];
    LittleEndian::write_u64(&mut bytes, segment.address);
    LittleEndian::write_u32(&mut bytes[8..], (8 * segment.words.len()) as u32);
    bytes
}

/// Puts one piece of a text, and tells the tally once it was taken whole.
fn put_and_tell<K: Sink, T: Tally>(bytes: &[u8], out: &mut K, tally: &mut T) -> Result<(), Failed>
    ensures text { Writes (K.taken out.old) (K.taken out.new) result bytes.now }
    ensures tally { OnOk result (Covers (T.told tally.old) (T.told tally.new) bytes.now) }
    ensures cause { HasCause (K.faults out.old) (K.faults out.new) result }
{
    put_piece(bytes, out)?;
    tally.tell(bytes);
    Ok(())
}

/// Puts the starts of the cores.
fn put_starts<K: Sink, T: Tally>(starts: &[Start], out: &mut K, tally: &mut T) -> Result<(), Failed>
    ensures text { Writes (K.taken out.old) (K.taken out.new) result (flat_map start_text starts.now) }
    ensures tally { OnOk result (Covers (T.told tally.old) (T.told tally.new) (flat_map start_text starts.now)) }
    ensures cause { HasCause (K.faults out.old) (K.faults out.new) result }
{
    for start in starts {
        put_and_tell(&bytes_of_start(start), out, tally)?;
    }
    Ok(())
}

/// Puts up to 512 words as one piece.
fn put_block<K: Sink, T: Tally>(words: &[u64], out: &mut K, tally: &mut T) -> Result<(), Failed>
    requires { length words.now ≤ BLOCK }
    ensures text { Writes (K.taken out.old) (K.taken out.new) result (words_text words.now) }
    ensures tally { OnOk result (Covers (T.told tally.old) (T.told tally.new) (words_text words.now)) }
    ensures cause { HasCause (K.faults out.old) (K.faults out.new) result }
{
    let mut bytes = [0; 8 * BLOCK];
    let used = &mut bytes[..8 * words.len()];
    LittleEndian::write_u64_into(words, used);
    put_and_tell(used, out, tally)
}

/// Puts the words of a segment, block by block.
fn put_words<K: Sink, T: Tally>(words: &[u64], out: &mut K, tally: &mut T) -> Result<(), Failed>
    ensures text { Writes (K.taken out.old) (K.taken out.new) result (words_text words.now) }
    ensures tally { OnOk result (Covers (T.told tally.old) (T.told tally.new) (words_text words.now)) }
    ensures cause { HasCause (K.faults out.old) (K.faults out.new) result }
{
    for block in words.chunks(BLOCK) {
        put_block(block, out, tally)?;
    }
    Ok(())
}

/// Puts a segment.
fn put_segment<K: Sink, T: Tally>(
    segment: &Segment,
    out: &mut K,
    tally: &mut T,
) -> Result<(), Failed>
    requires { IsShort segment.now }
    ensures text { Writes (K.taken out.old) (K.taken out.new) result (segment_text segment.now) }
    ensures tally { OnOk result (Covers (T.told tally.old) (T.told tally.new) (segment_text segment.now)) }
    ensures cause { HasCause (K.faults out.old) (K.faults out.new) result }
{
    put_and_tell(&head_of_segment(segment), out, tally)?;
    put_words(segment.words.as_slice(), out, tally)
}

/// Puts the segments.
fn put_segments<K: Sink, T: Tally>(
    segments: &[Segment],
    out: &mut K,
    tally: &mut T,
) -> Result<(), Failed>
    requires { AllByRecursion IsShort segments.now }
    ensures text { Writes (K.taken out.old) (K.taken out.new) result (flat_map segment_text segments.now) }
    ensures tally { OnOk result (Covers (T.told tally.old) (T.told tally.new) (flat_map segment_text segments.now)) }
    ensures cause { HasCause (K.faults out.old) (K.faults out.new) result }
{
    for segment in segments {
        put_segment(segment, out, tally)?;
    }
    Ok(())
}

/// Puts all but the digest.
fn put_body<K: Sink, T: Tally>(
    version: u8,
    image: &Image,
    out: &mut K,
    tally: &mut T,
) -> Result<(), Failed>
    requires { IsImage version image.now }
    ensures text { Writes (K.taken out.old) (K.taken out.new) result (body_text version image.now) }
    ensures tally { OnOk result (Covers (T.told tally.old) (T.told tally.new) (body_text version image.now)) }
    ensures cause { HasCause (K.faults out.old) (K.faults out.new) result }
{
    let head = head_of(version, &image.config, image.segments.len() as u16);
    put_and_tell(&head, out, tally)?;
    put_starts(image.starts.as_slice(), out, tally)?;
    put_segments(image.segments.as_slice(), out, tally)
}

/// Writes the one text of version 1 of an image. Takes no memory. `Failed` comes only where the sink's
/// count rose in this call; the sink has then taken a proper prefix of the text.
pub fn write_image<K: Sink>(image: &Image, out: &mut K) -> Result<(), Failed>
    requires { IsImage 1 image.now }
    ensures ok { OnOk result (Appends (K.taken out.old) (K.taken out.new) (image_text 1 image.now)) }
    ensures err { OnErr result (AppendsPart (K.taken out.old) (K.taken out.new) (image_text 1 image.now)) }
    ensures cause { HasCause (K.faults out.old) (K.faults out.new) result }
{
    put_body(1, image, out, &mut NoTally)
}

/// Writes the one text of version 2 of an image, which ends with its digest. Takes no memory. `Failed`
/// comes only where the sink's count rose in this call; the sink has then taken a proper prefix of the
/// text.
pub fn write_image_2<K: Sink>(image: &Image, out: &mut K) -> Result<(), Failed>
    requires { IsImage 2 image.now }
    ensures ok { OnOk result (Appends (K.taken out.old) (K.taken out.new) (image_text 2 image.now)) }
    ensures err { OnErr result (AppendsPart (K.taken out.old) (K.taken out.new) (image_text 2 image.now)) }
    ensures cause { HasCause (K.faults out.old) (K.faults out.new) result }
{
    let mut hasher = Sha256::new();
    put_body(2, image, out, &mut hasher)?;
    put_piece(&hasher.finalize(), out)
}
