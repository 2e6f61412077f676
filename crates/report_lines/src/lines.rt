//! Lines with the line feeds that end them.

ghost use Rattle.std.specs.Prelude.{◌≡◌, ◌<◌, ◌∷◌, ◌++◌, length};
ghost use Rattle.report_lines.specs.Lines.{ended_lines};

use text_in::Class;

/// The first line with the line feed that ends it, if there is one, and what stands behind it.
pub fn next_line(text: &[u8]) -> (&[u8], &[u8])
    requires { 0 < length text.now }
    ensures lines { ended_lines text.now ≡ result.0.now ∷ ended_lines result.1.now }
    ensures joined { text.now ≡ result.0.now ++ result.1.now }
    ensures some { 0 < length result.0.now }
{
    let (front, from) = Class::LineFeed.split(text);
    if from.is_empty() {
        (text, from)
    } else {
        text.split_at(front.len() + 1)
    }
}
