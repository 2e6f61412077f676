//! The lines of a log.

ghost use Rattle.std.specs.Prelude.{◌≡◌};
ghost use Rattle.hist.specs.declared.event.Event.TheVariants as events;
ghost use Rattle.report.specs.Events.{entry_line, event_line, trap_line, limit_line, log_line};

use hist::{Entry, Event, Why};
use text_out::Line;

/// The line that begins the log of a core.
#[tactic(auto, unfolding(crate::specs::Events::log_line))]
pub fn line_of_log(core: usize) -> Line
    ensures { result ≡ log_line core }
{
    let mut line = Line::new();
    line.text("log ");
    line.number(core as u64);
    line.text("\n");
    line
}

/// The line of a call's ticket in the log of its core.
#[tactic(auto, unfolding(crate::specs::Events::entry_line))]
pub fn line_of_ticket(ticket: u32) -> Line
    ensures { result ≡ entry_line ticket }
{
    let mut line = Line::new();
    line.text("entry ");
    line.number(u64::from(ticket));
    line.text("\n");
    line
}

#[tactic(auto, unfolding(crate::specs::Events::event_line))]
fn line_of_entry(entry: &Entry) -> Line
    ensures { result ≡ event_line (events.Entry entry.now) }
{
    line_of_ticket(entry.ticket)
}

#[tactic(auto, unfolding(crate::specs::Events::event_line))]
fn line_of_touch(region: u8, since: u32) -> Line
    ensures { result ≡ event_line (events.Touch region since) }
{
    let mut line = Line::new();
    line.text("touch ");
    line.number(u64::from(region));
    line.spaced(u64::from(since));
    line.text("\n");
    line
}

#[tactic(auto, unfolding(crate::specs::Events::trap_line))]
fn line_of_trap(line_number: u32, cause: u64, value: u64) -> Line
    ensures { result ≡ trap_line line_number cause value }
{
    let mut line = Line::new();
    line.text("trap ");
    line.number(u64::from(line_number));
    line.spaced(cause);
    line.spaced(value);
    line.text("\n");
    line
}

#[tactic(auto, unfolding(crate::specs::Events::limit_line))]
fn line_of_limit(line_number: u32) -> Line
    ensures { result ≡ limit_line line_number }
{
    let mut line = Line::new();
    line.text("limit ");
    line.number(u64::from(line_number));
    line.text("\n");
    line
}

#[tactic(auto, unfolding(crate::specs::Events::event_line))]
fn line_of_stop(line_number: u32, why: Why) -> Line
    ensures { result ≡ event_line (events.Stop line_number why) }
{
    match why {
        Why::Trap { cause, value } => line_of_trap(line_number, cause, value),
        Why::Limit => line_of_limit(line_number),
    }
}

/// The line of an event.
pub fn line_of_event(event: &Event) -> Line
    ensures { result ≡ event_line event.now }
{
    match event {
        Event::Entry(entry) => line_of_entry(entry),
        Event::Touch { region, since } => line_of_touch(*region, *since),
        Event::Stop { line, why } => line_of_stop(*line, *why),
    }
}
