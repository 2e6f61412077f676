//! Lines that are put into a sink.

ghost use Rattle.std.specs.Prelude.{ℕ, List};
ghost use Rattle.sm_ports.specs.Causes.{HasCause};
ghost use Rattle.report.specs.Objects.{numbered};
ghost use Rattle.text_out.specs.Written.{Writes};
ghost use Rattle.report.specs.Events.{event_line, log_text};
ghost use Rattle.report.specs.Tables.{region_line, mailbox_line, held_slot_text, enclave_text, thread_text};

use crate::events::{line_of_event, line_of_log};
use crate::tables::{line_of_enclave, line_of_mailbox, line_of_region, line_of_thread};
use hist::{Event, Log};
use mon_types::{Enclave, Mailbox, Region, Stage, Thread};
use sm_ports::{Failed, Sink};
use text_out::put_line;

/// An item of a list that a report prints.
pub trait Print {
    /// The lines of the item with this number in its list.
    ghost text: { ℕ → Self → List ℕ };

    /// Puts these lines.
    fn print<K: Sink>(&self, number: usize, out: &mut K) -> Result<(), Failed>
        ensures lines { Writes (K.taken out.old) (K.taken out.new) result (text number self.now) }
        ensures cause { HasCause (K.faults out.old) (K.faults out.new) result };
}

/// Puts the lines of each item, in order.
pub fn put_each<T: Print, K: Sink>(items: &[T], out: &mut K) -> Result<(), Failed>
    ensures lines { Writes (K.taken out.old) (K.taken out.new) result (numbered T.text 0 items.now) }
    ensures cause { HasCause (K.faults out.old) (K.faults out.new) result }
{
    for (number, item) in items.iter().enumerate() {
        item.print(number, out)?;
    }
    Ok(())
}

impl Print for Event {
    ghost text = { λ _ event. event_line event };

    fn print<K: Sink>(&self, _number: usize, out: &mut K) -> Result<(), Failed> {
        put_line(&line_of_event(self), out)
    }
}

impl Print for Log {
    ghost text = { log_text };

    fn print<K: Sink>(&self, number: usize, out: &mut K) -> Result<(), Failed> {
        put_line(&line_of_log(number), out)?;
        put_each(self.events(), out)
    }
}

impl Print for Region {
    ghost text = { region_line };

    fn print<K: Sink>(&self, number: usize, out: &mut K) -> Result<(), Failed> {
        put_line(&line_of_region(number, self), out)
    }
}

impl Print for Enclave {
    ghost text = { enclave_text };

    fn print<K: Sink>(&self, number: usize, out: &mut K) -> Result<(), Failed> {
        match self.stage {
            Stage::Empty => Ok(()),
            Stage::Loading => put_enclave(number, self, out),
            Stage::Initialized => put_enclave(number, self, out),
        }
    }
}

impl Print for Thread {
    ghost text = { thread_text };

    fn print<K: Sink>(&self, number: usize, out: &mut K) -> Result<(), Failed> {
        put_line(&line_of_thread(number, self.state, self.saved_at), out)
    }
}

/// Puts the lines of an enclave slot that is not empty.
fn put_enclave<K: Sink>(e: usize, enclave: &Enclave, out: &mut K) -> Result<(), Failed>
    ensures lines { Writes (K.taken out.old) (K.taken out.new) result (held_slot_text e enclave.now) }
    ensures cause { HasCause (K.faults out.old) (K.faults out.new) result }
{
    put_line(&line_of_enclave(e, enclave), out)?;
    put_mail(e, &enclave.mail, out)
}

/// Puts the lines of the mailboxes of an enclave slot.
fn put_mail<K: Sink>(e: usize, mail: &[Mailbox; 2], out: &mut K) -> Result<(), Failed>
    ensures lines { Writes (K.taken out.old) (K.taken out.new) result (numbered (mailbox_line e) 0 mail.now) }
    ensures cause { HasCause (K.faults out.old) (K.faults out.new) result }
{
    put_line(&line_of_mailbox(e, 0, &mail[0]), out)?;
    put_line(&line_of_mailbox(e, 1, &mail[1]), out)
}
