//! The line of an event.

ghost use Rattle.std.specs.Prelude.{◌≡◌, Some, IfSome};
ghost use Rattle.text_in.specs.Words.{words_of};
ghost use Rattle.report_lines.specs.declared.event.EventLine.{EventLine};
ghost use Rattle.report_lines.specs.Forms.{event_text, IsEventLine};
ghost use Rattle.report_lines.specs.Reading.{entry_event, touch_event, trap_event, limit_event, event_at, if_event_printed, event_in};

use crate::words::{number_at, without_end};
use hist::{Event, Why};
use mon_types::Config;
use report::{line_of_event, line_of_ticket};
use text_in::next_word;
use text_out::Line;

/// What the line of an event tells; of a call it is the ticket alone.
#[derive(Clone, Copy, Debug, PartialEq, Eq)]
pub enum EventLine {
    /// A call of the core, with this ticket.
    Entry { ticket: u32 },
    /// The first good look at a region that was owned since this ticket, since the core's last clear.
    Touch { region: u8, since: u32 },
    /// A stop at a line of the core's script, counted from 1.
    Stop { line: u32, why: Why },
}

fn entry_event(text: &[u8]) -> Option<EventLine>
    ensures { result ≡ entry_event (words_of text.now) }
{
    let (ticket, _) = number_at(u64::from(u32::MAX), text)?;
    Some(EventLine::Entry {
        ticket: ticket as u32,
    })
}

fn touch_event(config: &Config, text: &[u8]) -> Option<EventLine>
    ensures { result ≡ touch_event config.now (words_of text.now) }
{
    let (region, rest) = number_at(255, text)?;
    let (since, _) = number_at(u64::from(u32::MAX), rest)?;
    if region < u64::from(config.regions()) {
        Some(EventLine::Touch {
            region: region as u8,
            since: since as u32,
        })
    } else {
        None
    }
}

fn trap_event(text: &[u8]) -> Option<EventLine>
    ensures { result ≡ trap_event (words_of text.now) }
{
    let (line, rest) = number_at(u64::from(u32::MAX), text)?;
    let (cause, rest) = number_at(u64::MAX, rest)?;
    let (value, _) = number_at(u64::MAX, rest)?;
    Some(EventLine::Stop {
        line: line as u32,
        why: Why::Trap { cause, value },
    })
}

fn limit_event(text: &[u8]) -> Option<EventLine>
    ensures { result ≡ limit_event (words_of text.now) }
{
    let (line, _) = number_at(u64::from(u32::MAX), text)?;
    Some(EventLine::Stop {
        line: line as u32,
        why: Why::Limit,
    })
}

/// What the words would be in the line of an event.
#[tactic(auto, unfolding(crate::specs::Reading::event_at))]
fn event_at(config: &Config, text: &[u8]) -> Option<EventLine>
    ensures { result ≡ event_at config.now (words_of text.now) }
{
    let (word, rest) = next_word(text)?;
    if word == b"entry".as_slice() {
        entry_event(rest)
    } else if word == b"touch".as_slice() {
        touch_event(config, rest)
    } else if word == b"trap".as_slice() {
        trap_event(rest)
    } else if word == b"limit".as_slice() {
        limit_event(rest)
    } else {
        None
    }
}

/// The line of an event, as a report prints it.
pub fn line_of(event: EventLine) -> Line
    ensures { result ≡ event_text event }
{
    match event {
        EventLine::Entry { ticket } => line_of_ticket(ticket),
        EventLine::Touch { region, since } => line_of_event(&Event::Touch { region, since }),
        EventLine::Stop { line, why } => line_of_event(&Event::Stop { line, why }),
    }
}

#[tactic(auto, unfolding(crate::specs::Reading::event_in))]
fn event_in(config: &Config, line: &[u8]) -> Option<EventLine>
    ensures { result ≡ event_in config.now line.now }
{
    let event = event_at(config, without_end(line))?;
    if line == line_of(event).as_slice() {
        Some(event)
    } else {
        None
    }
}

/// The event of which this is the line, with the line feed that ends it, in a report of such a machine.
pub fn read_event(config: &Config, line: &[u8]) -> Option<EventLine>
    // What is read is printed so, and what is printed so is read.
    ensures found { IfSome result (λ event. IsEventLine config.now line.now event) }
    ensures only { (event : EventLine) → IsEventLine config.now line.now event → result ≡ Some event }
    ensures exact { result ≡ event_in config.now line.now }
{
    let _machine = config.regions();
    event_in(config, line)
}
