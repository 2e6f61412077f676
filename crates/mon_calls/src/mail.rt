//! What the calls on mailboxes leave of the records that they hold.

ghost use Rattle.std.specs.Prelude.{◌≡◌, ℕ, List};
ghost use Rattle.mon_types.specs.declared.thread.Mode.{Mode};
ghost use Rattle.mon_model.specs.MailCalls.{with_mailbox, sent};
ghost use Rattle.mon_mail.specs.Named.{named_mailbox, message_named, IsAccept, IsSend, IsRead};
ghost use Rattle.mon_calls.specs.Left.{with_message, left_by};

use crate::put::{set_enclave, set_second};
use lock_plan::Held;
use mon_mail::{after_accept, after_read, after_send};
use mon_types::{Call, Enclave};

/// accept.
pub fn apply_accept(call: &Call, ticket: u32, held: &mut Held)
    requires { IsAccept call.now }
    ensures { (mode : Mode) (digest : List ℕ) → held.new ≡ left_by mode call.now digest ticket held.old }
{
    let mut enclave = held.first_enclave();
    after_accept(ticket, call, &mut enclave);
    set_enclave(held, enclave);
}

/// The target after a message of another enclave, in slot `own` and with this record.
fn sent_by_other(call: &Call, own: u8, ticket: u32, sender: &Enclave, target: Enclave) -> Enclave
    requires { IsSend call.now }
    ensures { result ≡ with_mailbox target (named_mailbox call.now) (sent own (message_named call.now) sender.now.measure) }
{
    let mut new = target;
    after_send(ticket, call, own, Some(sender), &mut new);
    new
}

/// The enclave in slot `own` after a message to itself.
fn sent_to_itself(call: &Call, own: u8, ticket: u32, enclave: Enclave) -> Enclave
    requires { IsSend call.now }
    ensures { result ≡ with_mailbox enclave (named_mailbox call.now) (sent own (message_named call.now) enclave.measure) }
{
    let mut new = enclave;
    after_send(ticket, call, own, None, &mut new);
    new
}

/// send to slot `to`, by the enclave in slot `own`.
pub fn apply_send(call: &Call, own: u8, ticket: u32, to: u64, held: &mut Held)
    requires { IsSend call.now }
    ensures { held.new ≡ with_message held.old own to (named_mailbox call.now) (message_named call.now) }
{
    let first = held.first_enclave();
    let second = held.second_enclave();
    if u64::from(own) == to {
        set_enclave(held, sent_to_itself(call, own, ticket, first));
    } else if u64::from(own) < to {
        set_second(held, sent_by_other(call, own, ticket, &first, second));
    } else {
        set_enclave(held, sent_by_other(call, own, ticket, &second, first));
    }
}

/// read.
pub fn apply_read(call: &Call, ticket: u32, held: &mut Held)
    requires { IsRead call.now }
    ensures { (mode : Mode) (digest : List ℕ) → held.new ≡ left_by mode call.now digest ticket held.old }
{
    let mut enclave = held.first_enclave();
    after_read(ticket, call, &mut enclave);
    set_enclave(held, enclave);
}
