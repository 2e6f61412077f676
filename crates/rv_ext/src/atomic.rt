//! The atomic read-modify-write instructions.

ghost use Rattle.std.specs.Prelude.{◌≡◌, ◌⊎◌, ◌<◌, ◌^◌};
ghost use Rattle.rv_ext.specs.Amo.{combined, combined_bits};

use crate::op::AmoOp;
use crate::word::{low_word, signed_of, signed_of_word};

/// The new value in memory, of `size` bytes. At 4 bytes only the low 32 bits of `old` and `value`
/// count, and the answer is below 2^32.
pub fn amo(op: AmoOp, size: u8, old: u64, value: u64) -> u64
    requires { (size ≡ 4) ⊎ (size ≡ 8) }
    ensures combines { result ≡ combined op size old value }
    ensures word { size ≡ 4 → result < 2 ^ 32 }
{
    if size == 4 {
        u64::from(amo_word(op, low_word(old), low_word(value)))
    } else {
        amo_double(op, old, value)
    }
}

fn amo_word(op: AmoOp, old: u32, value: u32) -> u32
    ensures { result ≡ combined_bits op 32 old value }
{
    match op {
        AmoOp::Swap => value,
        AmoOp::Add => old.wrapping_add(value),
        AmoOp::Xor => old ^ value,
        AmoOp::And => old & value,
        AmoOp::Or => old | value,
        AmoOp::Min if signed_of_word(value) < signed_of_word(old) => value,
        AmoOp::Max if signed_of_word(old) < signed_of_word(value) => value,
        AmoOp::Min | AmoOp::Max => old,
        AmoOp::Minu => old.min(value),
        AmoOp::Maxu => old.max(value),
    }
}

fn amo_double(op: AmoOp, old: u64, value: u64) -> u64
    ensures { result ≡ combined_bits op 64 old value }
{
    match op {
        AmoOp::Swap => value,
        AmoOp::Add => old.wrapping_add(value),
        AmoOp::Xor => old ^ value,
        AmoOp::And => old & value,
        AmoOp::Or => old | value,
        AmoOp::Min if signed_of(value) < signed_of(old) => value,
        AmoOp::Max if signed_of(old) < signed_of(value) => value,
        AmoOp::Min | AmoOp::Max => old,
        AmoOp::Minu => old.min(value),
        AmoOp::Maxu => old.max(value),
    }
}
