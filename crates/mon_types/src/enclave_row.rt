//! The rows of words that hold the records of enclave slots.

ghost use Rattle.std.specs.Prelude.{◌≡◌, ◌≢◌, ◌+◌, ◌∷◌, ◌++◌};
ghost use Rattle.mon_types.specs.declared.enclave.Enclave.{Enclave};
ghost use Rattle.mon_types.specs.Enclaves.{IsEnclave, MailboxNamesSlot, EnclaveNamesSlots, empty_enclave, enclave_from, enclave_parts, enclave_row, mailbox_parts, mailbox_row, numbers_row, root_code, root_from, stage_from};

use crate::enclave::{Enclave, Mailbox, Stage};
use crate::words::{joined, u8_of, u16_of, words_at};

#[tactic(auto, unfolding(crate::specs::Enclaves::stage_from))]
fn stage_of(word: u64) -> Stage
    ensures { result ≡ stage_from word }
{
    match word {
        1 => Stage::Loading,
        2 => Stage::Initialized,
        _ => Stage::Empty,
    }
}

fn root_word(root: Option<u16>) -> u64
    ensures { result ≡ root_code root }
{
    match root {
        None => 0,
        Some(page) => u64::from(page) + 1,
    }
}

#[tactic(auto, unfolding(crate::specs::Enclaves::root_from))]
fn root_of(word: u64) -> Option<u16>
    ensures { result ≡ root_from word }
{
    if word == 0 {
        None
    } else {
        Some(u16_of(word - 1))
    }
}

/// The row of a mailbox with a message.
fn full_words(from: u8, words: &[u64; 4], measure: &[u64; 4]) -> [u64; 9]
    ensures { result ≡ (9 + from) ∷ (words.now ++ measure.now) }
{
    let message: [u64; 5] = joined(&[9 + u64::from(from)], words);
    joined(&message, measure)
}

fn mailbox_words(mailbox: &Mailbox) -> [u64; 9]
    requires { MailboxNamesSlot mailbox.now }
    ensures { result ≡ mailbox_row mailbox.now }
{
    match *mailbox {
        Mailbox::Closed => [0; 9],
        Mailbox::Expecting { from } => [1 + u64::from(from), 0, 0, 0, 0, 0, 0, 0, 0],
        Mailbox::Full {
            from,
            words,
            measure,
        } => full_words(from, &words, &measure),
    }
}

/// The mailbox whose row these words are; some mailbox where none has this row.
#[tactic(auto, unfolding(crate::specs::Enclaves::mailbox_parts, crate::specs::Enclaves::mailbox_by))]
fn mailbox_of(words: &[u64; 9]) -> Mailbox
    ensures { result ≡ mailbox_parts words.now }
{
    match words[0] {
        tag @ 1..=8 => Mailbox::Expecting {
            from: (tag - 1) as u8,
        },
        tag @ 9..=16 => Mailbox::Full {
            from: (tag - 9) as u8,
            words: words_at(words, 1),
            measure: words_at(words, 5),
        },
        _ => Mailbox::Closed,
    }
}

/// The seven numbers at the begin of a row.
fn numbers_words(enclave: &Enclave) -> [u64; 7]
    ensures { result ≡ numbers_row enclave.now }
{
    [
        enclave.stage.code(),
        enclave.base,
        enclave.size,
        enclave.regions,
        root_word(enclave.root),
        u64::from(enclave.next_page),
        u64::from(enclave.threads),
    ]
}

/// The row of an enclave slot: its stage (0, 1, 2), base, size and region set, its root page plus 1 or 0
/// for none, its next page, its thread count, four words of measurement, and nine words for each mailbox:
/// 0 closed, 1 + from expecting or 9 + from full, the message, and the sender's measurement. Each sender's
/// slot is below 8.
pub fn enclave_words(enclave: &Enclave) -> [u64; 29]
    requires { EnclaveNamesSlots enclave.now }
    ensures { result ≡ enclave_row enclave.now }
{
    let [first, second] = enclave.mail;
    let own: [u64; 11] = joined(&numbers_words(enclave), &enclave.measure);
    let mail: [u64; 18] = joined(&mailbox_words(&first), &mailbox_words(&second));
    joined(&own, &mail)
}

/// The record whose row these words are; some record where none has this row.
#[tactic(auto, unfolding(crate::specs::Enclaves::enclave_parts))]
fn candidate(words: &[u64; 29]) -> Enclave
    ensures parts { result ≡ enclave_parts words.now }
    ensures valid { IsEnclave result }
{
    Enclave {
        stage: stage_of(words[0]),
        base: words[1],
        size: words[2],
        regions: words[3],
        root: root_of(words[4]),
        next_page: u16_of(words[5]),
        threads: u8_of(words[6]),
        measure: words_at(words, 7),
        mail: [
            mailbox_of(&words_at(words, 11)),
            mailbox_of(&words_at(words, 20)),
        ],
    }
}

/// The record whose row these words are; where they are no record's row, that of a slot that holds no
/// enclave.
pub fn enclave_of(words: &[u64; 29]) -> Enclave
    ensures read { result ≡ enclave_from words.now }
    ensures valid { IsEnclave result }
    ensures back { (e : Enclave) → IsEnclave e → enclave_row e ≡ words.now → result ≡ e }
    ensures none { ((e : Enclave) → IsEnclave e → enclave_row e ≢ words.now) → result ≡ empty_enclave }
{
    let enclave = candidate(words);
    if enclave_words(&enclave) == *words {
        enclave
    } else {
        Enclave::empty()
    }
}
