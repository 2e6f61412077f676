//! The multiplication and division instructions.

ghost use Rattle.std.specs.Prelude.{◌≡◌, ◌*ℤ◌};
ghost use Rattle.rv_ext.specs.Signed.{signed, unsigned};
ghost use Rattle.rv_ext.specs.Multiply.{upper, quotient, remainder, multiplied};

use crate::op::MulOp;
use crate::word::{bits_of, bits_of_word, extend_word, low_word, signed_of, signed_of_word};

/// What the instruction writes to its destination, where `a` and `b` are the values of its first
/// and its second source register. There is no operand at which it fails: a quotient by zero has
/// all bits set, and a remainder by zero is the dividend.
pub fn multiply(op: MulOp, a: u64, b: u64) -> u64
    ensures { result ≡ multiplied op a b }
{
    match op {
        MulOp::Mul => a.wrapping_mul(b),
        MulOp::Mulh => upper_signed(a, b),
        MulOp::Mulhsu => upper_mixed(a, b),
        MulOp::Mulhu => upper_unsigned(a, b),
        MulOp::Div => signed_quotient(a, b),
        MulOp::Divu => unsigned_quotient(a, b),
        MulOp::Rem => signed_remainder(a, b),
        MulOp::Remu => unsigned_remainder(a, b),
        MulOp::Mulw => extend_word(low_word(a).wrapping_mul(low_word(b))),
        MulOp::Divw => extend_word(signed_word_quotient(low_word(a), low_word(b))),
        MulOp::Divuw => extend_word(unsigned_word_quotient(low_word(a), low_word(b))),
        MulOp::Remw => extend_word(signed_word_remainder(low_word(a), low_word(b))),
        MulOp::Remuw => extend_word(unsigned_word_remainder(low_word(a), low_word(b))),
    }
}

/// Bits 64 to 127 of a product.
fn upper_half(product: i128) -> u64
    ensures { result ≡ upper product }
{
    (product.cast_unsigned() >> 64) as u64
}

fn upper_signed(a: u64, b: u64) -> u64
    ensures { result ≡ upper (signed 64 a *ℤ signed 64 b) }
{
    upper_half(i128::from(signed_of(a)) * i128::from(signed_of(b)))
}

fn upper_mixed(a: u64, b: u64) -> u64
    ensures { result ≡ upper (signed 64 a *ℤ unsigned 64 b) }
{
    upper_half(i128::from(signed_of(a)) * i128::from(b))
}

// The product of two unsigned numbers may not fit an `i128`.
fn upper_unsigned(a: u64, b: u64) -> u64
    ensures { result ≡ upper (unsigned 64 a *ℤ unsigned 64 b) }
{
    ((u128::from(a) * u128::from(b)) >> 64) as u64
}

fn signed_quotient(a: u64, b: u64) -> u64
    ensures { result ≡ quotient signed 64 a b }
{
    if b == 0 {
        u64::MAX
    } else {
        bits_of(signed_of(a).wrapping_div(signed_of(b)))
    }
}

fn unsigned_quotient(a: u64, b: u64) -> u64
    ensures { result ≡ quotient unsigned 64 a b }
{
    if b == 0 { u64::MAX } else { a / b }
}

fn signed_remainder(a: u64, b: u64) -> u64
    ensures { result ≡ remainder signed 64 a b }
{
    if b == 0 {
        a
    } else {
        bits_of(signed_of(a).wrapping_rem(signed_of(b)))
    }
}

fn unsigned_remainder(a: u64, b: u64) -> u64
    ensures { result ≡ remainder unsigned 64 a b }
{
    if b == 0 { a } else { a % b }
}

fn signed_word_quotient(a: u32, b: u32) -> u32
    ensures { result ≡ quotient signed 32 a b }
{
    if b == 0 {
        u32::MAX
    } else {
        bits_of_word(signed_of_word(a).wrapping_div(signed_of_word(b)))
    }
}

fn unsigned_word_quotient(a: u32, b: u32) -> u32
    ensures { result ≡ quotient unsigned 32 a b }
{
    if b == 0 { u32::MAX } else { a / b }
}

fn signed_word_remainder(a: u32, b: u32) -> u32
    ensures { result ≡ remainder signed 32 a b }
{
    if b == 0 {
        a
    } else {
        bits_of_word(signed_of_word(a).wrapping_rem(signed_of_word(b)))
    }
}

fn unsigned_word_remainder(a: u32, b: u32) -> u32
    ensures { result ≡ remainder unsigned 32 a b }
{
    if b == 0 { a } else { a % b }
}
