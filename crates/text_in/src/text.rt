//! Lines, comments and words.

ghost use Rattle.std.specs.Prelude.{◌≡◌, ◌<◌, ◌∷◌, length};
ghost use Rattle.std.specs.List.{list_all};
ghost use Rattle.std.specs.Char.{is_ascii};
ghost use Rattle.text_in.specs.Cuts.{before_comment};
ghost use Rattle.text_in.specs.Lines.{lines_of, without_return};
ghost use Rattle.text_in.specs.Words.{words_of, IsNextWord};

use crate::class::Class;

/// The first line without its end, and what stands behind it.
pub fn next_line(text: &[u8]) -> (&[u8], &[u8])
    requires { 0 < length text.now }
    ensures lines { lines_of text.now ≡ result.0.now ∷ lines_of result.1.now }
    ensures shorter { length result.1.now < length text.now }
{
    match Class::LineFeed.split(text) {
        (line, [_, rest @ ..]) => (drop_return(line), rest),
        (line, []) => (line, &[]),
    }
}

fn drop_return(line: &[u8]) -> &[u8]
    ensures { result.now ≡ without_return line.now }
{
    match line {
        [front @ .., last] if *last == b'\r' => front,
        _ => line,
    }
}

/// What stands in a line before its comment.
pub fn before_comment(line: &[u8]) -> &[u8]
    ensures { result.now ≡ before_comment line.now }
{
    Class::NumberSign.before(line)
}

/// Whether all bytes are ASCII.
pub fn all_ascii(text: &[u8]) -> bool
    ensures { result ≡ list_all is_ascii text.now }
{
    text.iter().all(|byte| byte.is_ascii())
}

/// The first word, and what stands behind it; None where there is no word.
pub fn next_word(text: &[u8]) -> Option<(&[u8], &[u8])>
    ensures { IsNextWord text.now result }
{
    let rest = Class::Solid.from(text);
    if rest.is_empty() {
        None
    } else {
        Some(Class::Blank.split(rest))
    }
}

/// How many words a text has.
pub fn count_words(text: &[u8]) -> usize
    ensures { result ≡ length (words_of text.now) }
{
    let mut count = 0;
    let mut rest = text;
    while let Some((_, after)) = next_word(rest) {
        count += 1;
        rest = after;
    }
    count
}
