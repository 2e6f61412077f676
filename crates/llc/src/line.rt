//! One line of a trace.

ghost use Rattle.std.specs.Prelude.{◌≡◌};
ghost use Rattle.text_in.specs.Words.{words_of};
ghost use Rattle.llc.specs.Reading.{at_end, head_with, head_numbers, head_of, first_of, in_dram, access_with, access_of, words_in};
ghost use Rattle.llc.specs.Answers.{IsNextNumber};

use crate::cache_set::MOST_WAYS;
use crate::fault::TraceFault;
use dram_map::page_of;
use mon_types::Config;
use text_in::{before_comment, next_word, unsigned_number};

/// What the first line of a trace says: the machine, with one core, and how many lines a set of its cache
/// has.
#[derive(Clone, Copy, Debug)]
pub struct Head {
    pub config: Config,
    pub ways: u8,
}

/// The first word as a number of 8 bits, and what stands behind it.
fn next_number(text: &[u8]) -> Option<(u8, &[u8])>
    ensures { IsNextNumber (words_of text.now) result }
{
    let (word, rest) = next_word(text)?;
    let number = unsigned_number(word, 255)?;
    Some((number as u8, rest))
}

fn head_with(regions: u8, pages: u8, shift: u8, ways: u8) -> Option<Head>
    ensures { result ≡ head_with regions pages shift ways }
{
    let config = Config::new(1, regions, pages, shift)?;
    if 1 <= ways && ways <= MOST_WAYS {
        Some(Head { config, ways })
    } else {
        None
    }
}

/// The head with the four numbers that the text's words are.
#[tactic(auto, unfolding(crate::specs::Reading::head_numbers))]
fn read_numbers(text: &[u8]) -> Option<Head>
    ensures { result ≡ head_numbers (words_of text.now) }
{
    let (regions, rest) = next_number(text)?;
    let (pages, rest) = next_number(rest)?;
    let (shift, rest) = next_number(rest)?;
    let (ways, rest) = next_number(rest)?;
    if next_word(rest).is_some() {
        None
    } else {
        head_with(regions, pages, shift, ways)
    }
}

/// The head that the text's words are.
fn read_head(text: &[u8]) -> Option<Head>
    ensures { result ≡ head_of (words_of text.now) }
{
    let (word, rest) = next_word(text)?;
    if word == b"cache".as_slice() {
        read_numbers(rest)
    } else {
        None
    }
}

/// The head that the line of this number is; None where it is empty.
pub fn read_first(line: u32, text: &[u8]) -> Result<Option<Head>, TraceFault>
    ensures { result ≡ first_of line (words_in text.now) }
{
    let front = before_comment(text);
    if next_word(front).is_none() {
        return Ok(None);
    }
    match read_head(front) {
        Some(head) => Ok(Some(head)),
        None => Err(TraceFault::BadLine { line }),
    }
}

/// The access that the line of this number is; None where it is empty.
pub fn read_access(config: &Config, line: u32, text: &[u8]) -> Result<Option<u64>, TraceFault>
    ensures { result ≡ access_of config.now line (words_in text.now) }
{
    let Some((word, rest)) = next_word(before_comment(text)) else {
        return Ok(None);
    };
    match read_address(config, word, rest) {
        Some(address) => Ok(Some(address)),
        None => Err(TraceFault::BadLine { line }),
    }
}

/// The address in DRAM that a word is, with no word behind it.
fn read_address(config: &Config, word: &[u8], rest: &[u8]) -> Option<u64>
    ensures { result ≡ access_with config.now word.now (words_of rest.now) }
{
    if next_word(rest).is_some() {
        return None;
    }
    let address = unsigned_number(word, u64::MAX)?;
    page_of(config, address)?;
    Some(address)
}
