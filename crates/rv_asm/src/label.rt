//! Where labels stand.

ghost use Rattle.std.specs.Prelude.{◌≡◌, ◌≤◌, ℕ, List, length, OnOk, IfOk};
ghost use Rattle.text_in.specs.Lines.{lines_of};
ghost use Rattle.rv_asm.specs.Parts.{spots_in, IsKept};
ghost use Rattle.rv_asm.specs.Reading.{most_bytes, spots_of, words_in, size_by};

use crate::name::Name;
use crate::operand::fill;
use crate::text::{line_body, split_label, split_name};
use std::alloc::{AllocError, Global};
use std::collections::BTreeMap;
use text_in::next_line;

/// Where a label stands.
#[derive(Clone, Copy, Debug, PartialEq, Eq)]
pub struct Spot {
    /// The number of its line, counted from 1.
    pub line: u32,
    /// How many words stand before it.
    pub words: u64,
}

/// Labels and their spots.
pub type Labels<'a> = BTreeMap<&'a [u8], Spot>;

/// Where each label of a text stands first. A text has at most `limit` words; what takes no word because
/// it is faulty moves nothing.
pub fn find_labels<'a>(alloc: Global, limit: u32, text: &'a [u8]) -> Result<Labels<'a>, AllocError>
    requires { length text.now ≤ most_bytes }
    ensures { IfOk result (λ labels. (name : List ℕ) → spots_in labels name ≡ spots_of limit (lines_of text.now) name) }
{
    let mut labels = BTreeMap::new(alloc);
    let mut spot = Spot { line: 1, words: 0 };
    let mut rest = text;
    while !rest.is_empty() {
        let (line, after) = next_line(rest);
        let (label, statement) = split_label(line_body(line));
        if let Some(name) = label {
            keep_first(&mut labels, name, spot)?;
        }
        spot = Spot {
            line: spot.line + 1,
            words: spot.words + count_words(limit, spot.words, statement),
        };
        rest = after;
    }
    Ok(labels)
}

/// Adds a label, unless it is there already.
fn keep_first<'a>(labels: &mut Labels<'a>, name: &'a [u8], spot: Spot) -> Result<(), AllocError>
    ensures { OnOk result (IsKept (spots_in labels.old) (spots_in labels.new) name.now spot) }
{
    if !labels.contains_key(&name) {
        labels.insert(name, spot)?;
    }
    Ok(())
}

/// How many words a statement takes behind so many words, by its name alone; a place to fill up to that
/// is faulty takes none.
#[tactic(auto, unfolding(crate::specs::Reading::words_in))]
fn count_words(limit: u32, words: u64, statement: &[u8]) -> u64
    ensures { result ≡ words_in limit words statement.now }
{
    let (word, operands) = split_name(statement);
    match Name::of_word(word) {
        None => 0,
        Some(Name::DoubleWord) => 2,
        Some(Name::At) => fill(limit, words, operands).map_or(0, u64::from),
        Some(_) => 1,
    }
}
