//! Replies.

ghost use Rattle.std.specs.Prelude.{◌≡◌, Some, IfSome};
ghost use Rattle.std.specs.Option.{option_map};
ghost use Rattle.text_in.specs.Words.{words_of};
ghost use Rattle.report_lines.specs.Reading.{Reads, ok_at, concurrent_at, refusal_named, reply_at};
ghost use Rattle.hist.specs.Printing.{HasFewWords};

use crate::object::object_at;
use crate::words::{number_at, numbers_at};
use mon_types::{Config, Reply};
use text_in::next_word;

/// Ok with the numbers that come first, and what stands behind them.
fn ok_at(text: &[u8]) -> Option<(Reply, &[u8])>
    ensures read { Reads result (Some (ok_at (words_of text.now))) }
    ensures few { IfSome result (λ found. HasFewWords found.0) }
{
    let mut words = [0; 8];
    let (count, rest) = numbers_at(text, &mut words);
    let reply = Reply::Ok {
        count: count as u8,
        words,
    };
    Some((reply, rest))
}

/// That a lock was held, and what stands behind it.
fn concurrent_at<'a>(config: &Config, text: &'a [u8]) -> Option<(Reply, &'a [u8])>
    ensures read { Reads result (concurrent_at config.now (words_of text.now)) }
    ensures few { IfSome result (λ found. HasFewWords found.0) }
{
    let (lock, rest) = object_at(config, text)?;
    let (holder, rest) = number_at(255, rest)?;
    let (serial, rest) = number_at(u64::from(u32::MAX), rest)?;
    let reply = Reply::ConcurrentCall {
        lock,
        holder: holder as u8,
        serial: serial as u32,
    };
    Some((reply, rest))
}

/// The refusal of this name.
#[tactic(auto, unfolding(crate::specs::Reading::refusal_named))]
fn refusal_named(word: &[u8]) -> Option<Reply>
    ensures reply { result ≡ refusal_named word.now }
    ensures few { IfSome result (λ reply. HasFewWords reply) }
{
    if word == b"invalid_value".as_slice() {
        Some(Reply::InvalidValue)
    } else if word == b"invalid_state".as_slice() {
        Some(Reply::InvalidState)
    } else if word == b"access_denied".as_slice() {
        Some(Reply::AccessDenied)
    } else if word == b"not_flushed".as_slice() {
        Some(Reply::NotFlushed)
    } else if word == b"unsupported".as_slice() {
        Some(Reply::Unsupported)
    } else {
        None
    }
}

/// A refusal, and what stands behind it.
fn refusal_at<'a>(word: &[u8], rest: &'a [u8]) -> Option<(Reply, &'a [u8])>
    ensures read { Reads result (option_map (λ reply. (reply, words_of rest.now)) (refusal_named word.now)) }
    ensures few { IfSome result (λ found. HasFewWords found.0) }
{
    let reply = refusal_named(word)?;
    Some((reply, rest))
}

/// The reply that comes first, and what stands behind it.
#[tactic(auto, unfolding(crate::specs::Reading::reply_at))]
pub fn reply_at<'a>(config: &Config, text: &'a [u8]) -> Option<(Reply, &'a [u8])>
    ensures read { Reads result (reply_at config.now (words_of text.now)) }
    ensures few { IfSome result (λ found. HasFewWords found.0) }
{
    let (word, rest) = next_word(text)?;
    if word == b"ok".as_slice() {
        ok_at(rest)
    } else if word == b"concurrent".as_slice() {
        concurrent_at(config, rest)
    } else {
        refusal_at(word, rest)
    }
}
