//! Words and numbers of a line.

ghost use Rattle.std.specs.Prelude.{◌≡◌, ◌≤◌, length, replicate, IfSome};
ghost use Rattle.text_in.specs.Words.{words_of};
ghost use Rattle.report_lines.specs.Reading.{Reads, LeavesWords, number_at, numbers_at, padded};
ghost use Rattle.report_lines.specs.Lines.{without_end};

use text_in::{canonical_number, next_word};

/// What stands behind the first word.
pub fn behind_word(text: &[u8]) -> Option<&[u8]>
    ensures { LeavesWords result (words_of text.now) }
{
    let (_, rest) = next_word(text)?;
    Some(rest)
}

/// The first word as a number of at most `most`, and what stands behind it.
pub fn number_at(most: u64, text: &[u8]) -> Option<(u64, &[u8])>
    ensures read { Reads result (number_at most (words_of text.now)) }
    ensures within { IfSome result (λ found. found.0 ≤ most) }
{
    let (word, rest) = next_word(text)?;
    let number = canonical_number(word, most)?;
    Some((number, rest))
}

/// The numbers that come first, as many as there is room for; how many they are, and what stands behind them.
pub fn numbers_at<'a>(text: &'a [u8], numbers: &mut [u64]) -> (usize, &'a [u8])
    requires { numbers.old ≡ replicate (length numbers.old) 0 }
    ensures numbers { numbers.new ≡ padded (length numbers.old) (numbers_at (length numbers.old) (words_of text.now)).0 }
    ensures count { result.0 ≡ length (numbers_at (length numbers.old) (words_of text.now)).0 }
    ensures rest { words_of result.1.now ≡ (numbers_at (length numbers.old) (words_of text.now)).1 }
    ensures few { result.0 ≤ length numbers.old }
{
    let mut rest = text;
    for place in 0..numbers.len() {
        let Some((found, behind)) = number_at(u64::MAX, rest) else {
            return (place, rest);
        };
        numbers[place] = found;
        rest = behind;
    }
    (numbers.len(), rest)
}

/// A line without its last byte, which is the line feed that ends it.
pub fn without_end(line: &[u8]) -> &[u8]
    ensures { result.now ≡ without_end line.now }
{
    match line {
        [front @ .., _] => front,
        [] => line,
    }
}
