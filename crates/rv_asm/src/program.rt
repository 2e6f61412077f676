//! Whole texts.

ghost use Rattle.std.specs.Prelude.{◌≡◌, ℕ, ◌≤◌, List, ◌++◌, ◌+◌, length, replicate, OnOk, IfOk};
ghost use Rattle.text_in.specs.Lines.{lines_of};
ghost use Rattle.rv_asm.specs.Parts.{viewed, spots_in, IsLine, IsPushed};
ghost use Rattle.rv_asm.specs.Statements.{FitsStatement};
ghost use Rattle.rv_asm.specs.Answers.{Gives, Faults};
ghost use Rattle.rv_asm.specs.Grammar.{IsText};
ghost use Rattle.rv_asm.specs.Reading.{most_bytes, line_of, text_of, size_of, is_elsewhere, lines_from, statements_of, Assembles};

use crate::fault::{AsmError, AsmFault, AsmKind};
use crate::label::{Labels, find_labels};
use crate::name::Name;
use crate::statement::{Statement, read_statement};
use crate::text::{line_body, split_label, split_name};
use rv_decode::encode;
use std::alloc::{AllocError, Global};
use text_in::{all_ascii, next_line};

/// The most bytes of a text.
pub const LIMIT: usize = 1_048_576;

/// The words of an assembler text, of which there may be `limit`.
///
/// `AsmError::Fault` is the first fault of the text; it comes only where the text is outside the grammar,
/// has more words than `limit` or more bytes than `LIMIT`, and always there unless memory runs out.
pub fn assemble(alloc: Global, text: &[u8], limit: u32) -> Result<Vec<u32>, AsmError>
    // What is assembled is in the grammar, with these words.
    ensures found { IfOk result (λ words. IsText limit text.now words.items) }
    // What is in the grammar is assembled so, unless memory runs out.
    ensures only { (made : List ℕ) → IsText limit text.now made → Gives (viewed (λ words. words.items) result) made }
    // Which fault it is: the first one.
    ensures exact { Faults result (statements_of limit text.now) }
{
    assemble_text(alloc, text, limit)
}

/// The words of the statements that are read line by line, or the first fault.
#[tactic(auto, unfolding(crate::specs::Reading::statements_of))]
fn assemble_text(alloc: Global, text: &[u8], limit: u32) -> Result<Vec<u32>, AsmError>
    ensures exact { Assembles (viewed (λ words. words.items) result) (statements_of limit text.now) }
    ensures few { IfOk result (λ words. length words.items ≤ limit) }
{
    if text.len() > LIMIT {
        return Err(AsmError::Fault(AsmFault {
            line: 0,
            kind: AsmKind::TooLong,
        }));
    }
    let labels = find_labels(alloc, limit, text)?;
    read_lines(alloc, &labels, limit, text)
}

fn read_lines<'a>(
    alloc: Global,
    labels: &Labels<'a>,
    limit: u32,
    text: &'a [u8],
) -> Result<Vec<u32>, AsmError>
    requires { length text.now ≤ most_bytes }
    ensures exact { Assembles (viewed (λ words. words.items) result) (lines_from limit (spots_in labels.now) 1 0 (lines_of text.now)) }
    ensures few { IfOk result (λ words. length words.items ≤ limit) }
{
    let mut words = Vec::new(alloc);
    let mut number = 0u32;
    let mut rest = text;
    while !rest.is_empty() {
        let (line, after) = next_line(rest);
        number += 1;
        match read_line(labels, limit, number, words.len() as u32, line) {
            Ok(None) => {}
            Ok(Some(statement)) => push_words(&mut words, statement)?,
            Err(kind) => return Err(AsmError::Fault(AsmFault { line: number, kind })),
        }
        rest = after;
    }
    Ok(words)
}

/// The statement of the line of this number, behind so many words; None where it has none.
#[tactic(auto, unfolding(crate::specs::Reading::line_of))]
fn read_line<'a>(
    labels: &Labels<'a>,
    limit: u32,
    number: u32,
    words: u32,
    line: &'a [u8],
) -> Result<Option<Statement>, AsmKind>
    ensures value { result ≡ line_of limit (spots_in labels.now) number words line.now }
    ensures fits { IfOk result (IsLine limit words) }
{
    let (label, statement) = split_label(line_body(line));
    if let Some(name) = label
        && is_elsewhere(labels, number, name)
    {
        return Err(AsmKind::DoubleLabel);
    }
    if !all_ascii(line) {
        return Err(AsmKind::UnknownWord);
    }
    if statement.is_empty() {
        return Ok(None);
    }
    Ok(Some(read_text(labels, limit, words, statement)?))
}

/// Whether the label stands on another line first.
fn is_elsewhere<'a>(labels: &Labels<'a>, number: u32, name: &'a [u8]) -> bool
    ensures { result ≡ is_elsewhere number (spots_in labels.now name.now) }
{
    match labels.get(&name) {
        Some(spot) => spot.line != number,
        None => false,
    }
}

/// The statement that the text is, behind so many words.
#[tactic(auto, unfolding(crate::specs::Reading::text_of))]
fn read_text<'a>(
    labels: &Labels<'a>,
    limit: u32,
    words: u32,
    statement: &'a [u8],
) -> Result<Statement, AsmKind>
    ensures value { result ≡ text_of limit (spots_in labels.now) words statement.now }
    ensures fits { IfOk result FitsStatement }
    ensures room { IfOk result (λ s. words + size_of s ≤ limit) }
{
    let (word, operands) = split_name(statement);
    let name = Name::of_word(word).ok_or(AsmKind::UnknownWord)?;
    let statement = read_statement(labels, limit, words, name, operands)?;
    if u64::from(words) + statement_size(statement) > u64::from(limit) {
        return Err(AsmKind::TooLong);
    }
    Ok(statement)
}

fn statement_size(statement: Statement) -> u64
    ensures { result ≡ size_of statement }
{
    match statement {
        Statement::Make(_) | Statement::Word(_) => 1,
        Statement::DoubleWord(_) => 2,
        Statement::Fill(count) => u64::from(count),
    }
}

/// Adds the words of a statement.
fn push_words(words: &mut Vec<u32>, statement: Statement) -> Result<(), AllocError>
    requires { FitsStatement statement }
    ensures { OnOk result (IsPushed statement words.old.items words.new.items) }
{
    match statement {
        Statement::Make(inst) => words.push(encode(&inst))?,
        Statement::Word(n) => words.push(n)?,
        Statement::DoubleWord(n) => {
            words.push((n % (1 << 32)) as u32)?;
            words.push((n / (1 << 32)) as u32)?;
        }
        Statement::Fill(count) => push_zeros(words, count)?,
    }
    Ok(())
}

fn push_zeros(words: &mut Vec<u32>, count: u32) -> Result<(), AllocError>
    ensures { OnOk result (words.new.items ≡ words.old.items ++ replicate count 0) }
{
    for _ in 0..count {
        words.push(0)?;
    }
    Ok(())
}
