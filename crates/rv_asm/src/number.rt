//! Numbers and registers.

ghost use Rattle.std.specs.Prelude.{◌≡◌, ◌<◌, ◌^◌, ◌+◌, IfSome, pos, neg_ℤ, ◌<ℤ◌};
ghost use Rattle.text_in.specs.Numbers.{capped};
ghost use Rattle.rv_asm.specs.Numbers.{register_of, number_by};

use text_in::{canonical_number, capped_decimal, capped_unsigned};

/// The number of a word: decimal digits with an optional minus sign, or `0x` and hexadecimal digits of
/// either case. A number of 2^66 or more is answered as 2^66 with its remainder by 4, and one below zero
/// likewise.
pub fn word_number(word: &[u8]) -> Option<i128>
    ensures value { result ≡ number_by capped word.now }
    ensures least { IfSome result (λ n. neg_ℤ (pos (2 ^ 66 + 4)) <ℤ n) }
    ensures below { IfSome result (λ n. n <ℤ pos (2 ^ 66 + 4)) }
{
    match word {
        [b'-', digits @ ..] => Some(-(capped_decimal(digits)? as i128)),
        _ => Some(capped_unsigned(word)? as i128),
    }
}

/// The register that a word names: `x0` to `x31`.
#[tactic(auto, unfolding(crate::specs::Numbers::register_of))]
pub fn word_register(word: &[u8]) -> Option<u8>
    ensures value { result ≡ register_of word.now }
    ensures fits { IfSome result (λ r. r < 32) }
{
    match word {
        [b'x', number @ ..] => Some(canonical_number(number, 31)? as u8),
        _ => None,
    }
}
