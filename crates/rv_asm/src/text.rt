//! Labels, names and operands of a line.

ghost use Rattle.std.specs.Prelude.{◌≡◌, ◌∷◌};
ghost use Rattle.std.specs.List.{list_all};
ghost use Rattle.std.specs.Option.{option_map};
ghost use Rattle.text_in.specs.Bytes.{is_name_byte, is_no_space};
ghost use Rattle.text_in.specs.Cuts.{trimmed};
ghost use Rattle.rv_asm.specs.Text.{body_of, begins_label, is_label, label_of, statement_text, name_word, operands_text, parts_of};
ghost use Rattle.rv_asm.specs.Parts.{parts_behind};

use crate::name::Name;
use text_in::{Class, before_comment, is_name_byte, is_name_start};

/// What a line says: without its comment, and without blanks at its start and at its end.
pub fn line_body(line: &[u8]) -> &[u8]
    ensures { result.now ≡ body_of line.now }
{
    Class::Solid.up_to_last(Class::Solid.from(before_comment(line)))
}

fn without_spaces(text: &[u8]) -> &[u8]
    ensures { result.now ≡ trimmed is_no_space text.now }
{
    Class::NoSpace.up_to_last(Class::NoSpace.from(text))
}

/// Whether the word has the form of a label, and is no name of a statement.
pub fn is_label(word: &[u8]) -> bool
    ensures { result ≡ is_label word.now }
{
    begins_label(word) && all_label_bytes(word) && Name::of_word(word).is_none()
}

fn begins_label(word: &[u8]) -> bool
    ensures { result ≡ begins_label word.now }
{
    match word {
        [first, ..] => is_name_start(*first),
        [] => false,
    }
}

fn all_label_bytes(word: &[u8]) -> bool
    ensures { result ≡ list_all is_name_byte word.now }
{
    word.iter().all(|byte| is_name_byte(*byte))
}

/// The label of a line, where it has one, and its statement, which is empty where it has none.
pub fn split_label(body: &[u8]) -> (Option<&[u8]>, &[u8])
    ensures label { option_map (λ l. l.now) result.0 ≡ label_of body.now }
    ensures statement { result.1.now ≡ statement_text body.now }
{
    match Class::EndsName.split(body) {
        (label, [b':', rest @ ..]) if is_label(label) => (Some(label), Class::Solid.from(rest)),
        _ => (None, body),
    }
}

/// The first word of a statement, and the text of its operands.
pub fn split_name(statement: &[u8]) -> (&[u8], &[u8])
    ensures name { result.0.now ≡ name_word statement.now }
    ensures operands { result.1.now ≡ operands_text statement.now }
{
    let (name, behind) = Class::Blank.split(statement);
    (name, Class::Solid.from(behind))
}

/// What stands before the first comma, without the spaces round it; and what stands behind that comma,
/// where there is one.
pub fn split_comma(text: &[u8]) -> (&[u8], Option<&[u8]>)
    ensures { parts_of text.now ≡ result.0.now ∷ parts_behind result.1 }
{
    let part = without_spaces(Class::Comma.before(text));
    match Class::Comma.from(text) {
        [_, rest @ ..] => (part, Some(rest)),
        [] => (part, None),
    }
}
