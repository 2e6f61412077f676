//! Immediates: the bits of one in two's complement, and where they stand in a word of each format.

ghost use Rattle.std.specs.Prelude.{◌≡◌, ◌*◌, ◌<◌, ◌≤◌, pos, neg_ℤ, ◌≤ℤ◌, ◌<ℤ◌};
ghost use Rattle.rv_decode.specs.Formats.{signed_reading};
ghost use Rattle.rv_decode.specs.Parts.{i_immediate_of, s_immediate_of, b_immediate_of, u_immediate_of, j_immediate_of};

use crate::fields::{FUNCT3, FUNCT7, RD, RS2, rd};

/// The number that bits, which count to twice `half`, say in two's complement.
fn signed(bits: u32, half: u32) -> i64
    ensures { result ≡ signed_reading half bits }
{
    if bits < half {
        i64::from(bits)
    } else {
        i64::from(bits) - 2 * i64::from(half)
    }
}

/// The bits of an immediate in two's complement, which count to twice `half`.
pub fn bits_of(imm: i64, half: u32) -> u32
    requires half { half ≤ 2147483648 }
    requires least { neg_ℤ (pos half) ≤ℤ imm }
    requires below { imm <ℤ pos half }
    ensures fits { result < 2 * half }
    ensures back { signed_reading half result ≡ imm }
{
    if imm < 0 {
        (imm + 2 * i64::from(half)) as u32
    } else {
        imm as u32
    }
}

/// The immediate of a word of format I.
pub fn i_immediate(word: u32) -> i64
    ensures { result ≡ i_immediate_of word }
{
    signed(word / RS2, 1 << 11)
}

/// The immediate of a word of format S.
pub fn s_immediate(word: u32) -> i64
    ensures { result ≡ s_immediate_of word }
{
    signed(u32::from(rd(word)) + 32 * (word / FUNCT7), 1 << 11)
}

/// The immediate of a word of format B.
pub fn b_immediate(word: u32) -> i64
    ensures { result ≡ b_immediate_of word }
{
    let low = 2 * (word / (1 << 8) % 16) + 32 * (word / FUNCT7 % 64);
    let high = 2048 * (word / RD % 2) + 4096 * (word / (1 << 31));
    signed(low + high, 1 << 12)
}

/// The immediate of a word of format U.
pub fn u_immediate(word: u32) -> i64
    ensures { result ≡ u_immediate_of word }
{
    signed(word / FUNCT3 * FUNCT3, 1 << 31)
}

/// The immediate of a word of format J.
pub fn j_immediate(word: u32) -> i64
    ensures { result ≡ j_immediate_of word }
{
    let low = 2 * (word / (1 << 21) % 1024) + 2048 * (word / RS2 % 2);
    let high = 4096 * (word / FUNCT3 % 256) + (1 << 20) * (word / (1 << 31));
    signed(low + high, 1 << 20)
}
