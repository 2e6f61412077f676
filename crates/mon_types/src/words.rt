//! Words of 64 bits, one by one and in a row.

ghost use Rattle.std.specs.Prelude.{◌≡◌, ◌+◌, ◌^◌, ◌≤◌, ◌++◌, length, take, drop};
ghost use Rattle.mon_types.specs.Words.{AreWords, fitting};

/// The number that a word holds; 0 where it is too large for its type.
#[tactic(auto, unfolding(crate::specs::Words::fitting))]
pub(crate) fn u16_of(word: u64) -> u16
    ensures { result ≡ fitting (2 ^ 16) word }
{
    u16::try_from(word).unwrap_or(0)
}

/// The number that a word holds; 0 where it is too large for its type.
#[tactic(auto, unfolding(crate::specs::Words::fitting))]
pub(crate) fn u8_of(word: u64) -> u8
    ensures { result ≡ fitting (2 ^ 8) word }
{
    u8::try_from(word).unwrap_or(0)
}

/// The number that a word holds; 0 where it is too large for its type.
#[tactic(auto, unfolding(crate::specs::Words::fitting))]
pub(crate) fn u32_of(word: u64) -> u32
    ensures { result ≡ fitting (2 ^ 32) word }
{
    u32::try_from(word).unwrap_or(0)
}

/// The words from this place on.
pub(crate) fn words_at<const N: usize>(words: &[u64], at: usize) -> [u64; N]
    requires { at + N ≤ length words.now }
    ensures part { result ≡ take N (drop at words.now) }
    ensures valid { AreWords N result }
{
    let mut part = [0; N];
    part.copy_from_slice(&words[at..at + N]);
    part
}

/// The words of one row and then of another.
pub(crate) fn joined<const N: usize>(front: &[u64], back: &[u64]) -> [u64; N]
    requires { length front.now + length back.now ≡ N }
    ensures { result ≡ front.now ++ back.now }
{
    let mut row = [0; N];
    let (start, end) = row[..].split_at_mut(front.len());
    start.copy_from_slice(front);
    end.copy_from_slice(back);
    row
}
