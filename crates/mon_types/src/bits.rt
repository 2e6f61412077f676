//! Words as sets of small numbers, a bit for each.

ghost use Rattle.std.specs.Prelude.{◌≡◌, ◌<◌, ◌^◌};
ghost use Rattle.mon_types.specs.Bits.{has_bit, with_bit, without_bit};

/// The set of `i` alone.
pub fn bit(i: u8) -> u64
    requires { i < 64 }
    ensures { result ≡ 2 ^ i }
{
    1 << i
}

/// Whether `i` is in the set.
pub fn has_bit(set: u64, i: u8) -> bool
    requires { i < 64 }
    ensures { result ≡ has_bit set i }
{
    (set >> i) % 2 == 1
}

/// The set and `i`.
pub fn with_bit(set: u64, i: u8) -> u64
    requires { i < 64 }
    ensures { result ≡ with_bit set i }
{
    if has_bit(set, i) { set } else { set + bit(i) }
}

/// The set without `i`.
pub fn without_bit(set: u64, i: u8) -> u64
    requires { i < 64 }
    ensures { result ≡ without_bit set i }
{
    if has_bit(set, i) { set - bit(i) } else { set }
}
