//! What the calls on mailboxes answer once their objects are held.

ghost use Rattle.std.specs.Prelude.{◌≡◌, ◌<◌, ◌++◌};
ghost use Rattle.mon_types.specs.Replies.{done, ok_with_eight};
ghost use Rattle.mon_model.specs.MailCalls.{expects, send_reply, read_reply};

use mon_types::{Enclave, Mailbox, Reply, Stage};

/// accept, which has no refusal here.
pub fn decide_accept() -> Reply
    ensures { result ≡ done }
{
    Reply::done()
}

/// Whether the mailbox waits for a message of this sender.
fn is_expecting(mailbox: &Mailbox, sender: u8) -> bool
    ensures { result ≡ expects sender mailbox.now }
{
    match *mailbox {
        Mailbox::Expecting { from } => sender == from,
        Mailbox::Closed | Mailbox::Full { .. } => false,
    }
}

/// send, by the enclave in slot `own` to mailbox `m` of the enclave with the record `target`:
/// InvalidState where the target is not Initialized or its mailbox does not expect that sender.
pub fn decide_send(own: u8, target: &Enclave, m: u8) -> Reply
    requires { m < 2 }
    ensures { result ≡ send_reply own target.now m }
{
    if target.stage == Stage::Initialized && is_expecting(&target.mail[usize::from(m)], own) {
        Reply::done()
    } else {
        Reply::InvalidState
    }
}

/// Ok with the words of a message, then its sender's measurement.
fn message_reply(words: &[u64; 4], measure: &[u64; 4]) -> Reply
    ensures { result ≡ ok_with_eight (words.now ++ measure.now) }
{
    let [w0, w1, w2, w3] = *words;
    let [m0, m1, m2, m3] = *measure;
    Reply::ok_with_eight([w0, w1, w2, w3, m0, m1, m2, m3])
}

/// read of mailbox `m` of the enclave with the record `own`: InvalidState where the mailbox is not
/// Full. The words are the four of the message, then its sender's measurement.
pub fn decide_read(own: &Enclave, m: u8) -> Reply
    requires { m < 2 }
    ensures { result ≡ read_reply own.now m }
{
    match own.mail[usize::from(m)] {
        Mailbox::Full { words, measure, .. } => message_reply(&words, &measure),
        Mailbox::Closed | Mailbox::Expecting { .. } => Reply::InvalidState,
    }
}
