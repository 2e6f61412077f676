//! Numbers.

ghost use Rattle.std.specs.Prelude.{◌≡◌, ℕ, ◌≤◌, ◌<◌, ◌^◌, ◌+◌, ◌⊎◌, Some, IfSome};
ghost use Rattle.std.specs.Option.{option_map};
ghost use Rattle.std.specs.Fmt.{decimal};
ghost use Rattle.text_in.specs.Numbers.{IsDecimal, IsUnsigned, digit_of, with_byte, digits_number, unsigned_of, canonical_of, up_to, capped};

/// The first number that is kept only by its remainder by 4.
const LARGE: u128 = 1 << 66;

/// The number of a word of decimal digits, with or without leading zeros, where it is at most `most`.
pub fn decimal_number(word: &[u8], most: u64) -> Option<u64>
    ensures value { result ≡ up_to most (digits_number 10 word.now) }
    // What is read is the number, and what is the number is read.
    ensures found { IfSome result (IsDecimal word.now) }
    ensures only { (n : ℕ) → n ≤ most → IsDecimal word.now n → result ≡ Some n }
    ensures within { IfSome result (λ n. n ≤ most) }
{
    at_most(most, capped_decimal(word))
}

/// The number of a word, decimal digits, or `0x` and hexadecimal digits of either case, where it is at most
/// `most`.
pub fn unsigned_number(word: &[u8], most: u64) -> Option<u64>
    ensures value { result ≡ up_to most (unsigned_of word.now) }
    // What is read is the number, and what is the number is read.
    ensures found { IfSome result (IsUnsigned word.now) }
    ensures only { (n : ℕ) → n ≤ most → IsUnsigned word.now n → result ≡ Some n }
    ensures within { IfSome result (λ n. n ≤ most) }
{
    at_most(most, capped_unsigned(word))
}

/// The number of a word that is written as numbers are printed, in decimal digits without a leading zero,
/// where it is at most `most`.
pub fn canonical_number(word: &[u8], most: u64) -> Option<u64>
    ensures value { result ≡ up_to most (canonical_of word.now) }
    // What is read is printed so, and what is printed so is read.
    ensures found { IfSome result (λ n. word.now ≡ decimal n) }
    ensures only { (n : ℕ) → n ≤ most → word.now ≡ decimal n → result ≡ Some n }
    ensures within { IfSome result (λ n. n ≤ most) }
{
    without_leading_zero(word, most)
}

/// The number of a word of decimal digits, of any size. A number of 2^66 or more is answered as 2^66 with its
/// remainder by 4.
pub fn capped_decimal(word: &[u8]) -> Option<u128>
    ensures value { result ≡ option_map capped (digits_number 10 word.now) }
    ensures fits { IfSome result (λ n. n < 2 ^ 66 + 4) }
{
    digits_value(10, word)
}

/// The number of a word, decimal digits, or `0x` and hexadecimal digits of either case, of any size. A number
/// of 2^66 or more is answered as 2^66 with its remainder by 4.
pub fn capped_unsigned(word: &[u8]) -> Option<u128>
    ensures value { result ≡ option_map capped (unsigned_of word.now) }
    ensures fits { IfSome result (λ n. n < 2 ^ 66 + 4) }
{
    match word {
        [b'0', b'x', digits @ ..] => digits_value(16, digits),
        _ => digits_value(10, word),
    }
}

fn without_leading_zero(word: &[u8], most: u64) -> Option<u64>
    ensures value { result ≡ up_to most (canonical_of word.now) }
    ensures within { IfSome result (λ n. n ≤ most) }
{
    match word {
        [b'0', _, ..] => None,
        _ => decimal_number(word, most),
    }
}

fn at_most(most: u64, number: Option<u128>) -> Option<u64>
    ensures value { result ≡ up_to most number }
    ensures within { IfSome result (λ n. n ≤ most) }
{
    match number {
        Some(n) if n <= u128::from(most) => Some(n as u64),
        _ => None,
    }
}

fn digits_value(base: u128, digits: &[u8]) -> Option<u128>
    requires { (base ≡ 10) ⊎ (base ≡ 16) }
    ensures value { result ≡ option_map capped (digits_number base digits.now) }
    ensures fits { IfSome result (λ n. n < 2 ^ 66 + 4) }
{
    if digits.is_empty() {
        return None;
    }
    let mut value = 0;
    for byte in digits {
        value = cap(add_byte(base, value, *byte)?);
    }
    Some(value)
}

fn cap(n: u128) -> u128
    ensures value { result ≡ capped n }
    ensures fits { result < 2 ^ 66 + 4 }
{
    if n < LARGE { n } else { LARGE + n % 4 }
}

fn add_byte(base: u128, value: u128, byte: u8) -> Option<u128>
    requires base { base ≤ 16 }
    requires value { value < 2 ^ 66 + 4 }
    ensures { result ≡ with_byte base value byte }
{
    let digit = digit_value(byte)?;
    if digit < base {
        Some(value * base + digit)
    } else {
        None
    }
}

fn digit_value(byte: u8) -> Option<u128>
    ensures value { result ≡ digit_of byte }
    ensures fits { IfSome result (λ digit. digit < 16) }
{
    match byte {
        b'0'..=b'9' => Some((byte - b'0') as u128),
        b'A'..=b'F' => Some((byte - b'A') as u128 + 10),
        b'a'..=b'f' => Some((byte - b'a') as u128 + 10),
        _ => None,
    }
}
