//! Operands.

ghost use Rattle.std.specs.Prelude.{◌≡◌, ◌<◌, ◌*◌, ◌^◌, pos, neg_ℤ, ◌-ℤ◌, ◌≤ℤ◌, ◌<ℤ◌, ◌%◌, unsigned_abs, IfOk};
ghost use Rattle.rv_asm.specs.Text.{operands_of};
ghost use Rattle.rv_asm.specs.Parts.{viewed, spots_in};
ghost use Rattle.rv_asm.specs.Statements.{number_in, register_in, distance, even, target_in, based_of, based_in, displaced_in, fill, fill_of, none_of, one_of, two_of, three_of, within};

use crate::fault::AsmKind;
use crate::label::{Labels, Spot};
use crate::number::{word_number, word_register};
use crate::text::{is_label, split_comma};
use text_in::Class;

/// That there is no operand.
pub fn none(text: &[u8]) -> Result<(), AsmKind>
    ensures { result ≡ none_of (operands_of text.now) }
{
    if text.is_empty() {
        Ok(())
    } else {
        Err(AsmKind::BadOperand)
    }
}

/// The operand, where there is one alone.
pub fn one(text: &[u8]) -> Result<&[u8], AsmKind>
    ensures { viewed (λ a. a.now) result ≡ one_of (operands_of text.now) }
{
    if text.is_empty() {
        return Err(AsmKind::BadOperand);
    }
    match split_comma(text) {
        (a, None) => Ok(a),
        (_, Some(_)) => Err(AsmKind::BadOperand),
    }
}

/// The operands, where there are two.
pub fn two(text: &[u8]) -> Result<(&[u8], &[u8]), AsmKind>
    ensures { viewed (λ p. (p.0.now, p.1.now)) result ≡ two_of (operands_of text.now) }
{
    if text.is_empty() {
        return Err(AsmKind::BadOperand);
    }
    let (a, Some(rest)) = split_comma(text) else {
        return Err(AsmKind::BadOperand);
    };
    match split_comma(rest) {
        (b, None) => Ok((a, b)),
        (_, Some(_)) => Err(AsmKind::BadOperand),
    }
}

/// The operands, where there are three.
pub fn three(text: &[u8]) -> Result<(&[u8], &[u8], &[u8]), AsmKind>
    ensures { viewed (λ p. (p.0.now, p.1.now, p.2.now)) result ≡ three_of (operands_of text.now) }
{
    if text.is_empty() {
        return Err(AsmKind::BadOperand);
    }
    let (a, Some(rest)) = split_comma(text) else {
        return Err(AsmKind::BadOperand);
    };
    let (b, Some(rest)) = split_comma(rest) else {
        return Err(AsmKind::BadOperand);
    };
    match split_comma(rest) {
        (c, None) => Ok((a, b, c)),
        (_, Some(_)) => Err(AsmKind::BadOperand),
    }
}

/// A register.
pub fn register(word: &[u8]) -> Result<u8, AsmKind>
    ensures value { result ≡ register_in word.now }
    ensures fits { IfOk result (λ r. r < 32) }
{
    word_register(word).ok_or(AsmKind::BadOperand)
}

fn in_range(n: i128, least: i128, most: i128) -> Result<i128, AsmKind>
    ensures value { result ≡ within least most n }
    ensures least { IfOk result (λ n. least ≤ℤ n) }
    ensures most { IfOk result (λ n. n ≤ℤ most) }
{
    if least <= n && n <= most {
        Ok(n)
    } else {
        Err(AsmKind::OutOfRange)
    }
}

/// A number from `least` to `most`, of at most 64 bits.
pub fn number(word: &[u8], least: i128, most: i128) -> Result<i128, AsmKind>
    requires least { neg_ℤ (pos (2 ^ 64)) <ℤ least }
    requires most { most <ℤ pos (2 ^ 64) }
    ensures value { result ≡ number_in least most word.now }
    ensures least { IfOk result (λ n. least ≤ℤ n) }
    ensures most { IfOk result (λ n. n ≤ℤ most) }
{
    let n = word_number(word).ok_or(AsmKind::BadOperand)?;
    in_range(n, least, most)
}

/// A target: a label, or an even offset in bytes, from the statement behind so many words; it is below
/// `half` on either side.
pub fn target<'a>(
    labels: &Labels<'a>,
    half: i64,
    words: u32,
    word: &'a [u8],
) -> Result<i64, AsmKind>
    requires small { pos 0 ≤ℤ half }
    ensures value { result ≡ target_in (spots_in labels.now) half words word.now }
    ensures least { IfOk result (λ n. neg_ℤ half ≤ℤ n) }
    ensures below { IfOk result (λ n. n <ℤ half) }
    ensures even { IfOk result (λ n. unsigned_abs n % 2 ≡ 0) }
{
    if is_label(word) {
        return distance(labels.get(&word).copied(), half, words);
    }
    let n = word_number(word).ok_or(AsmKind::BadOperand)?;
    even(below_half(n, half)?)
}

fn even(n: i64) -> Result<i64, AsmKind>
    ensures value { result ≡ even n }
    ensures same { IfOk result (λ m. m ≡ n) }
    ensures even { IfOk result (λ m. unsigned_abs m % 2 ≡ 0) }
{
    if n % 2 == 0 {
        Ok(n)
    } else {
        Err(AsmKind::OutOfRange)
    }
}

fn distance(spot: Option<Spot>, half: i64, words: u32) -> Result<i64, AsmKind>
    requires { pos 0 ≤ℤ half }
    ensures value { result ≡ distance half words spot }
    ensures least { IfOk result (λ n. neg_ℤ half ≤ℤ n) }
    ensures below { IfOk result (λ n. n <ℤ half) }
    ensures even { IfOk result (λ n. unsigned_abs n % 2 ≡ 0) }
{
    match spot {
        None => Err(AsmKind::UnknownLabel),
        Some(spot) => below_half(bytes_between(words, spot.words), half),
    }
}

/// How many bytes there are from one place to another, each behind so many words.
fn bytes_between(from: u32, to: u64) -> i128
    ensures { result ≡ pos (4 * to) -ℤ pos (4 * from) }
{
    4 * (i128::from(to) - i128::from(from))
}

fn below_half(n: i128, half: i64) -> Result<i64, AsmKind>
    requires { pos 0 ≤ℤ half }
    ensures value { result ≡ within (neg_ℤ half) (half -ℤ pos 1) n }
    ensures least { IfOk result (λ n. neg_ℤ half ≤ℤ n) }
    ensures below { IfOk result (λ n. n <ℤ half) }
{
    let n = in_range(n, -i128::from(half), i128::from(half) - 1)?;
    Ok(n as i64)
}

/// A register between parentheses.
pub fn based(word: &[u8]) -> Result<u8, AsmKind>
    ensures value { result ≡ based_in word.now }
    ensures fits { IfOk result (λ r. r < 32) }
{
    match word {
        [first, inner @ .., last] if *first == b'(' && *last == b')' => register(inner),
        _ => Err(AsmKind::BadOperand),
    }
}

/// An immediate of twelve bits, and behind it a register between parentheses. Both have their form
/// before the number is looked at.
pub fn displaced(word: &[u8]) -> Result<(i64, u8), AsmKind>
    ensures value { result ≡ displaced_in word.now }
    ensures least { IfOk result (λ p. neg_ℤ (pos 2048) ≤ℤ p.0) }
    ensures below { IfOk result (λ p. p.0 <ℤ pos 2048) }
    ensures base { IfOk result (λ p. p.1 < 32) }
{
    let n = word_number(Class::Open.before(word)).ok_or(AsmKind::BadOperand)?;
    let base = based(Class::Open.from(word))?;
    let imm = in_range(n, -2048, 2047)?;
    Ok((imm as i64, base))
}

/// How many zero words there are up to a place in bytes, behind so many words; at most `limit` words
/// stand before the place.
pub fn fill(limit: u32, words: u64, text: &[u8]) -> Result<u32, AsmKind>
    ensures { result ≡ fill_of limit words (operands_of text.now) }
{
    let n = word_number(one(text)?).ok_or(AsmKind::BadOperand)?;
    if n < 4 * i128::from(words) || n % 4 != 0 {
        return Err(AsmKind::OutOfRange);
    }
    if n / 4 > i128::from(limit) {
        return Err(AsmKind::TooLong);
    }
    Ok((n / 4 - i128::from(words)) as u32)
}
