//! Registers and their low words, read as signed numbers and written back.

ghost use Rattle.std.specs.Prelude.{◌≡◌, ◌%◌, ◌^◌};
ghost use Rattle.rv_ext.specs.Signed.{signed, low_bits, sign_extended};

pub fn signed_of(x: u64) -> i64
    ensures { result ≡ signed 64 x }
{
    x.cast_signed()
}

pub fn signed_of_word(x: u32) -> i32
    ensures { result ≡ signed 32 x }
{
    x.cast_signed()
}

pub fn bits_of(z: i64) -> u64
    ensures { result ≡ low_bits 64 z }
{
    z.cast_unsigned()
}

pub fn bits_of_word(z: i32) -> u32
    ensures { result ≡ low_bits 32 z }
{
    z.cast_unsigned()
}

/// The low 32 bits of a register.
pub fn low_word(x: u64) -> u32
    ensures { result ≡ x % 2 ^ 32 }
{
    (x % (1 << 32)) as u32
}

/// A word as the word instructions leave it in a register.
pub fn extend_word(x: u32) -> u64
    ensures { result ≡ sign_extended 32 x }
{
    bits_of(i64::from(signed_of_word(x)))
}
