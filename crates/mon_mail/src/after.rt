//! What the calls on mailboxes leave.

ghost use Rattle.std.specs.Prelude.{◌≡◌};
ghost use Rattle.std.specs.Option.{option_copied};
ghost use Rattle.mon_model.specs.MailCalls.{with_mailbox, sent};
ghost use Rattle.mon_mail.specs.Named.{named_mailbox, named_sender, message_named, sender_of, IsAccept, IsSend, IsRead};

use mon_types::{Call, Enclave, Mailbox};

/// What accept leaves: the mailbox of the enclave that made the call expects the sender, whatever it
/// was.
pub fn after_accept(ticket: u32, call: &Call, enclave: &mut Enclave)
    requires { IsAccept call.now }
    ensures { enclave.new ≡ with_mailbox enclave.old (named_mailbox call.now) (Mailbox.Expecting (named_sender call.now)) }
{
    let Call::Accept { m, from } = *call else {
        unreachable!()
    };
    enclave.mail[m as usize] = Mailbox::Expecting { from: from as u8 };
}

/// What send leaves: the target's mailbox is Full with the number `own` of the slot of the enclave that
/// made the call, the four words and that enclave's measurement. `sender` is its record, None where it
/// is the target.
pub fn after_send(ticket: u32, call: &Call, own: u8, sender: Option<&Enclave>, target: &mut Enclave)
    requires { IsSend call.now }
    ensures { target.new ≡ with_mailbox target.old (named_mailbox call.now) (sent own (message_named call.now) (sender_of (option_copied sender.entry) target.old).measure) }
{
    let Call::Send {
        m,
        w0,
        w1,
        w2,
        w3,
        ..
    } = *call
    else {
        unreachable!()
    };
    let measure = match sender {
        Some(enclave) => enclave.measure,
        None => target.measure,
    };
    target.mail[m as usize] = Mailbox::Full {
        from: own,
        words: [w0, w1, w2, w3],
        measure,
    };
}

/// What read leaves: the mailbox is Closed.
pub fn after_read(ticket: u32, call: &Call, enclave: &mut Enclave)
    requires { IsRead call.now }
    ensures { enclave.new ≡ with_mailbox enclave.old (named_mailbox call.now) Mailbox.Closed }
{
    let Call::Read { m } = *call else {
        unreachable!()
    };
    enclave.mail[m as usize] = Mailbox::Closed;
}
