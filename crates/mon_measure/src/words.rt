//! A measurement as four words.

ghost use Rattle.std.specs.Prelude.{◌≡◌, ◌≤◌, ◌+◌, length, take, drop};
ghost use Rattle.std.specs.Int.{w64, from_le_bytes};
ghost use Rattle.mon_model.specs.Measure.{to_words, to_bytes};

use byteorder::{ByteOrder, LittleEndian};

/// The word in the eight bytes from `at`, the lowest first.
fn word_at(bytes: &[u8; 32], at: usize) -> u64
    requires { at + 8 ≤ length bytes.now }
    ensures { result ≡ from_le_bytes w64 (take 8 (drop at bytes.now)) }
{
    LittleEndian::read_u64(&bytes[at..])
}

/// The four words of a measurement: its bytes, eight at a time, the lowest first. `to_bytes` gives the
/// bytes back.
pub fn to_words(m: &[u8; 32]) -> [u64; 4]
    ensures words { result ≡ to_words m.now }
    ensures back { to_bytes result ≡ m.now }
{
    [word_at(m, 0), word_at(m, 8), word_at(m, 16), word_at(m, 24)]
}

/// The bytes of a measurement from its four words. `to_words` gives the words back.
pub fn to_bytes(w: &[u64; 4]) -> [u8; 32]
    ensures bytes { result ≡ to_bytes w.now }
    ensures back { to_words result ≡ w.now }
{
    let mut bytes = [0; 32];
    LittleEndian::write_u64_into(w, &mut bytes);
    bytes
}
