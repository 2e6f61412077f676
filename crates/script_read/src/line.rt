//! One line.

ghost use Rattle.std.specs.Prelude.{◌≡◌, ◌≤◌, ◌∷◌, length, IfOk, IfSome};
ghost use Rattle.std.specs.Option.{option_map};
ghost use Rattle.text_in.specs.Words.{words_of};
ghost use Rattle.script_read.specs.Forms.{most};
ghost use Rattle.script_read.specs.Drafts.{MayBeSaid};
ghost use Rattle.script_read.specs.Reading.{argument_of, arguments_of, with_zeros, said_with, form_read, line_of_words, line_of};

use crate::fault::{LineKind, ScriptFault};
use crate::form::Form;
use crate::said::Said;
use mon_types::OS_WORD;
use text_in::{all_ascii, before_comment, count_words, next_word, unsigned_number};

/// What the line of this number says, where cores are below `count`; None where it is empty.
#[tactic(auto, unfolding(crate::specs::Reading::line_of))]
pub fn read_line(count: u8, line: u32, text: &[u8]) -> Result<Option<Said>, ScriptFault>
    ensures value { result ≡ line_of count line text.now }
    ensures may { IfOk result (λ said. IfSome said (MayBeSaid count)) }
{
    let before = before_comment(text);
    if all_ascii(before) {
        read_words(count, line, before)
    } else {
        Err(ScriptFault::BadLine {
            line,
            kind: LineKind::UnknownWord,
        })
    }
}

#[tactic(auto, unfolding(crate::specs::Reading::line_of_words))]
fn read_words(count: u8, line: u32, text: &[u8]) -> Result<Option<Said>, ScriptFault>
    ensures { result ≡ line_of_words count line (words_of text.now) }
{
    let Some((word, rest)) = next_word(text) else {
        return Ok(None);
    };
    let Some(form) = Form::of_word(word) else {
        return Err(ScriptFault::BadLine {
            line,
            kind: LineKind::UnknownWord,
        });
    };
    match read_form(count, form, rest) {
        Ok(said) => Ok(Some(said)),
        Err(kind) => Err(ScriptFault::BadLine { line, kind }),
    }
}

/// What the line of this form says with the arguments that the text has.
#[tactic(auto, unfolding(crate::specs::Reading::form_read))]
fn read_form(count: u8, form: Form, text: &[u8]) -> Result<Said, LineKind>
    requires { most form ≤ 7 }
    ensures { result ≡ form_read count form (words_of text.now) }
{
    let words = count_words(text);
    if words < form.least() {
        return Err(LineKind::MissingWord);
    }
    if words > form.most() {
        return Err(LineKind::ExtraWord);
    }
    read_numbers(count, form, text)
}

fn read_numbers(count: u8, form: Form, text: &[u8]) -> Result<Said, LineKind>
    requires { length (words_of text.now) ≤ 7 }
    ensures { result ≡ said_with count form (arguments_of form 0 (words_of text.now)) }
{
    match read_arguments(form, text) {
        Some(args) => form.said(count, &args),
        None => Err(LineKind::BadNumber),
    }
}

/// The numbers that the words stand for, and zeros behind them.
fn read_arguments(form: Form, text: &[u8]) -> Option<[u64; 7]>
    requires { length (words_of text.now) ≤ 7 }
    ensures { result ≡ option_map (with_zeros 7) (arguments_of form 0 (words_of text.now)) }
{
    let mut args = [0; 7];
    let mut place = 0;
    let mut rest = text;
    while let Some((word, after)) = next_word(rest) {
        args[place] = read_argument(form, place, word)?;
        place += 1;
        rest = after;
    }
    Some(args)
}

fn read_argument(form: Form, place: usize, word: &[u8]) -> Option<u64>
    ensures { result ≡ argument_of form place word.now }
{
    if form.takes_os(place) && word == b"os".as_slice() {
        Some(OS_WORD)
    } else {
        unsigned_number(word, u64::MAX)
    }
}
