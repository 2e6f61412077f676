//! Loaded bytes as the value of a register.

ghost use Rattle.std.specs.Prelude.{◌≡◌};
ghost use Rattle.rv_exec.specs.Loads.{IsSize, loaded};

use rv_ext::{bits_of, extend_word, low_word};

/// What a load writes to its register: the low `size` bytes of `value`, their sign extended where
/// `signed`, and zeros above them where not.
pub fn finish_load(size: u8, signed: bool, value: u64) -> u64
    requires { IsSize size }
    ensures { result ≡ loaded size signed value }
{
    match size {
        1 => finish_byte(signed, (value % (1 << 8)) as u8),
        2 => finish_half(signed, (value % (1 << 16)) as u16),
        4 => finish_word(signed, low_word(value)),
        _ => value,
    }
}

fn finish_byte(signed: bool, byte: u8) -> u64
    ensures { result ≡ loaded 1 signed byte }
{
    if signed {
        bits_of(i64::from(byte.cast_signed()))
    } else {
        u64::from(byte)
    }
}

fn finish_half(signed: bool, half: u16) -> u64
    ensures { result ≡ loaded 2 signed half }
{
    if signed {
        bits_of(i64::from(half.cast_signed()))
    } else {
        u64::from(half)
    }
}

fn finish_word(signed: bool, word: u32) -> u64
    ensures { result ≡ loaded 4 signed word }
{
    if signed {
        extend_word(word)
    } else {
        u64::from(word)
    }
}
