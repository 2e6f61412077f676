//! The line of a call.

ghost use Rattle.std.specs.Prelude.{◌≡◌, Some, IfSome, take};
ghost use Rattle.std.specs.List.{find};
ghost use Rattle.std.specs.Option.{option_map};
ghost use Rattle.std.specs.Str.{bytes_eq};
ghost use Rattle.text_in.specs.Words.{words_of};
ghost use Rattle.hist.specs.declared.event.Entry.{Entry};
ghost use Rattle.mon_types.specs.Calls.{call_of_registers};
ghost use Rattle.hist.specs.Printing.{HasFewWords};
ghost use Rattle.hist.specs.Legal.{has_its_page};
ghost use Rattle.report_lines.specs.Forms.{IsCallLine};
ghost use Rattle.report_lines.specs.Reading.{Reads, head_at, name_of, number_named, unknown_call, call_named, call_at, digest_at, page_at, is_by_cores, has_right_page, entry_at, if_printed, call_in};

use crate::object::tried_of;
use crate::reply::reply_at;
use crate::words::{behind_word, number_at, numbers_at, without_end};
use hist::{Entry, PageInput};
use mon_types::{Call, Config, Reply};
use report::line_of_call;
use text_in::next_word;

/// The ticket, the core and the serial of a call.
#[derive(Clone, Copy, Debug)]
struct Head {
    ticket: u32,
    core: u8,
    serial: u32,
}

/// The numbers of the calls that have a name of their own and are asked for.
const NAMED: [u64; 22] = [
    1, 2, 3, 4, 5, 6, 7, 8, 9, 10, 11, 12, 13, 14, 16, 17, 18, 19, 20, 21, 22, 23,
];

/// The ticket, the core and the serial, each behind its word, and what stands behind them.
fn head_at(text: &[u8]) -> Option<(Head, &[u8])>
    ensures { Reads result (head_at (words_of text.now)) }
{
    let rest = behind_word(text)?;
    let (ticket, rest) = number_at(u64::from(u32::MAX), rest)?;
    let rest = behind_word(rest)?;
    let (core, rest) = number_at(255, rest)?;
    let rest = behind_word(rest)?;
    let (serial, rest) = number_at(u64::from(u32::MAX), rest)?;
    let head = Head {
        ticket: ticket as u32,
        core: core as u8,
        serial: serial as u32,
    };
    Some((head, rest))
}

/// The name of the call of this number.
fn name_of(number: u64) -> &'static str
    ensures { result.now ≡ name_of number }
{
    Call::of_registers(number, [0; 6]).name()
}

fn number_among(numbers: &[u64], word: &[u8]) -> Option<u64>
    ensures { result ≡ find (λ number. bytes_eq word.now (name_of number)) numbers.now }
{
    for number in numbers {
        if word == name_of(*number).as_bytes() {
            return Some(*number);
        }
    }
    None
}

/// The number of the call of this name.
fn number_named(word: &[u8]) -> Option<u64>
    ensures { result ≡ number_named word.now }
{
    number_among(&NAMED, word)
}

/// The call of no known number with these numbers, the first of which is its own.
fn unknown_call(numbers: &[u64; 33]) -> Option<Call>
    ensures { result ≡ unknown_call numbers.now }
{
    let number = numbers[0];
    if number == 0 || number == 15 || 23 < number {
        let args = [
            numbers[1], numbers[2], numbers[3], numbers[4], numbers[5], numbers[6],
        ];
        Some(Call::Unknown { number, args })
    } else {
        None
    }
}

fn known_call(name: &[u8], numbers: &[u64; 33]) -> Option<Call>
    ensures { result ≡ option_map (λ number. call_of_registers number (take 6 numbers.now)) (number_named name.now) }
{
    let number = number_named(name)?;
    let args = [
        numbers[0], numbers[1], numbers[2], numbers[3], numbers[4], numbers[5],
    ];
    Some(Call::of_registers(number, args))
}

/// The call of this name with these numbers.
#[tactic(auto, unfolding(crate::specs::Reading::call_named))]
fn call_named(name: &[u8], numbers: &[u64; 33]) -> Option<Call>
    ensures { result ≡ call_named name.now numbers.now }
{
    if name == b"ecall".as_slice() {
        unknown_call(numbers)
    } else if name == b"aex".as_slice() {
        Some(Call::Aex { saved: *numbers })
    } else {
        known_call(name, numbers)
    }
}

/// The call that a name and the numbers behind it are, and what stands behind them.
fn call_at(text: &[u8]) -> Option<(Call, &[u8])>
    ensures { Reads result (call_at (words_of text.now)) }
{
    let (name, rest) = next_word(text)?;
    let mut numbers = [0; 33];
    let (_, rest) = numbers_at(rest, &mut numbers);
    let call = call_named(name, &numbers)?;
    Some((call, rest))
}

/// The page whose digest comes first, and what stands behind it.
fn digest_at(text: &[u8]) -> Option<(Option<PageInput>, &[u8])>
    ensures { Reads result (digest_at (words_of text.now)) }
{
    let (word, rest) = next_word(text)?;
    let mut digest = [0; 32];
    match hex::decode_to_slice(word, &mut digest) {
        Ok(()) => Some((Some(PageInput { digest, at: 0 }), rest)),
        Err(_) => None,
    }
}

/// The page, where the word that begins one comes first, and what stands behind it.
#[tactic(auto, unfolding(crate::specs::Reading::page_at))]
fn page_at(text: &[u8]) -> Option<(Option<PageInput>, &[u8])>
    ensures { Reads result (page_at (words_of text.now)) }
{
    match next_word(text) {
        Some((word, rest)) if word == b"page".as_slice() => digest_at(rest),
        _ => Some((None, text)),
    }
}

/// What the words would be in the line of a call.
#[tactic(auto, unfolding(crate::specs::Reading::entry_at))]
fn entry_at(config: &Config, text: &[u8]) -> Option<Entry>
    ensures entry { result ≡ entry_at config.now (words_of text.now) }
    ensures few { IfSome result (λ e. HasFewWords e.reply) }
{
    let (head, rest) = head_at(text)?;
    let (call, rest) = call_at(rest)?;
    let (page, rest) = page_at(rest)?;
    let rest = behind_word(rest)?;
    let (reply, rest) = reply_at(config, rest)?;
    let rest = behind_word(rest)?;
    let tried = tried_of(config, rest)?;
    Some(Entry {
        ticket: head.ticket,
        core: head.core,
        serial: head.serial,
        call,
        page,
        reply,
        tried,
    })
}

/// Whether the core is one of the machine, and the holder of the lock too, if the call met one.
fn is_by_cores(config: &Config, core: u8, reply: &Reply) -> bool
    ensures { result ≡ is_by_cores config.now core reply.now }
{
    match reply {
        Reply::ConcurrentCall { holder, .. } => core < config.cores() && *holder < config.cores(),
        _ => core < config.cores(),
    }
}

/// Whether the entry is a load_page that answered Ok.
fn has_its_page(entry: &Entry) -> bool
    ensures { result ≡ has_its_page entry.now }
{
    match entry.call {
        Call::LoadPage { .. } => entry.reply.is_ok(),
        _ => false,
    }
}

fn has_right_page(entry: &Entry) -> bool
    ensures { result ≡ has_right_page entry.now }
{
    if has_its_page(entry) {
        entry.page.is_some()
    } else {
        entry.page.is_none()
    }
}

/// The call, where this is its line.
#[tactic(auto, using(crate::proofs::Pages::right_page))]
fn if_printed(config: &Config, line: &[u8], entry: Entry) -> Option<Entry>
    requires { HasFewWords entry.reply }
    ensures { result ≡ if_printed config.now line.now entry }
{
    if !is_by_cores(config, entry.core, &entry.reply) {
        return None;
    }
    if !has_right_page(&entry) {
        return None;
    }
    if line == line_of_call(&entry).as_slice() {
        Some(entry)
    } else {
        None
    }
}

#[tactic(auto, unfolding(crate::specs::Reading::call_in))]
fn call_in(config: &Config, line: &[u8]) -> Option<Entry>
    ensures { result ≡ call_in config.now line.now }
{
    let entry = entry_at(config, without_end(line))?;
    if_printed(config, line, entry)
}

/// The call of which this is the line, with the line feed that ends it, in a report of such a machine. Where the page
/// that it read stands among the answers is not printed: it is read as 0.
pub fn read_call(config: &Config, line: &[u8]) -> Option<Entry>
    // What is read is printed so, and what is printed so is read.
    ensures found { IfSome result (λ e. IsCallLine config.now line.now e) }
    ensures only { (e : Entry) → IsCallLine config.now line.now e → result ≡ Some e }
    ensures exact { result ≡ call_in config.now line.now }
{
    let _machine = config.regions();
    call_in(config, line)
}
