//! The line of a machine.

ghost use Rattle.std.specs.Prelude.{◌≡◌, Some, IfSome};
ghost use Rattle.mon_types.specs.Shape.{Shape};
ghost use Rattle.text_in.specs.Words.{words_of};
ghost use Rattle.report_lines.specs.Forms.{IsMachineLine};
ghost use Rattle.report_lines.specs.Reading.{Reads, shape_with, shape_at, if_machine_printed, machine_in, small_at};

use crate::words::{behind_word, number_at, without_end};
use mon_types::Config;
use report::line_of_machine;

/// The number behind the first word, and what stands behind it.
fn small_at(text: &[u8]) -> Option<(u8, &[u8])>
    ensures { Reads result (small_at (words_of text.now)) }
{
    let rest = behind_word(text)?;
    let (number, rest) = number_at(255, rest)?;
    Some((number as u8, rest))
}

fn shape_with(cores: u8, regions: u8, pages: u8, shift: u8) -> Option<Config>
    ensures { result ≡ shape_with cores regions pages shift }
{
    Config::new(cores, regions, pages, shift)
}

/// What the words would be in the line of a machine.
#[tactic(auto, unfolding(crate::specs::Reading::shape_at))]
fn shape_at(text: &[u8]) -> Option<Config>
    ensures { result ≡ shape_at (words_of text.now) }
{
    let rest = behind_word(text)?;
    let (cores, rest) = small_at(rest)?;
    let (regions, rest) = small_at(rest)?;
    let (pages, rest) = small_at(rest)?;
    let (shift, _) = small_at(rest)?;
    shape_with(cores, regions, pages, shift)
}

#[tactic(auto, unfolding(crate::specs::Reading::machine_in))]
fn machine_in(line: &[u8]) -> Option<Config>
    ensures { result ≡ machine_in line.now }
{
    let config = shape_at(without_end(line))?;
    if line == line_of_machine(&config).as_slice() {
        Some(config)
    } else {
        None
    }
}

/// The machine of which this is the line, with the line feed that ends it.
pub fn read_machine(line: &[u8]) -> Option<Config>
    // What is read is printed so, and what is printed so is read.
    ensures found { IfSome result (λ shape. IsMachineLine line.now shape) }
    ensures only { (shape : Shape) → IsMachineLine line.now shape → result ≡ Some shape }
    ensures exact { result ≡ machine_in line.now }
{
    machine_in(line)
}
