//! The entry lines of a core's log.

ghost use Rattle.std.specs.Prelude.{◌≡◌, ◌≤◌, ◌<◌, ◌-◌, ◌^◌, length, OnOk, IfOk};
ghost use Rattle.report_lines.specs.Lines.{ended_lines};
ghost use Rattle.legal_report.specs.Drawn.{IsCallWithTicket, is_flush_named, DrawnTell, IsTold};
ghost use Rattle.legal_report.specs.Form.{events_at};
ghost use Rattle.legal_report.specs.Kept.{CallsLaid, calls_told};
ghost use Rattle.legal_report.specs.Laid.{limit};

use crate::tickets::Calls;
use hist::Entry;
use mon_types::{Call, Items};
use report_lines::{EventLine, next_line, read_event};
use std::alloc::{AllocError, Global};

/// What the event lines of a core's log tell of its calls, in the order of the lines.
#[derive(Debug, Drop)]
pub struct Drawn {
    /// How many event lines there are.
    pub events: u32,
    /// The tickets of the entry lines.
    pub tickets: Items<u32>,
    /// Those of which the entry is an Ok flush of the core.
    pub flushes: Items<u32>,
}

impl Calls<'_> {
    /// The call of a core with this ticket, if there is one.
    pub fn with_ticket(&self, core: u8, ticket: u32) -> Option<Entry>
        requires { CallsLaid self.now }
        ensures { IsCallWithTicket (calls_told self.now) core ticket result }
    {
        if ticket == 0 {
            return None;
        }
        let place = ticket as usize - 1;
        if place >= self.places.len() {
            return None;
        }
        let entry = self.at(place);
        if entry.core == core {
            Some(entry)
        } else {
            None
        }
    }

    /// Whether the entry that a line of a core's log names is an Ok flush.
    pub fn is_flush(&self, core: u8, ticket: u32) -> bool
        requires { CallsLaid self.now }
        ensures { result ≡ is_flush_named (calls_told self.now) core ticket }
    {
        match self.with_ticket(core, ticket) {
            Some(entry) => entry.reply.is_ok() && matches!(entry.call, Call::Flush),
            None => false,
        }
    }
}

impl Calls<'_> {
    /// Tells one more event line.
    fn tell(&self, drawn: &mut Drawn, core: u8, event: EventLine) -> Result<(), AllocError>
        requires laid { CallsLaid self.now }
        requires room { drawn.old.events < 2 ^ 32 - 1 }
        ensures { OnOk result (IsTold (calls_told self.now) core event drawn.old drawn.new) }
    {
        drawn.events += 1;
        if let EventLine::Entry { ticket } = event {
            drawn.tickets.push(ticket)?;
            if self.is_flush(core, ticket) {
                drawn.flushes.push(ticket)?;
            }
        }
        Ok(())
    }

    /// What the event lines with which this text begins tell, which are those of the core's log.
    pub fn drawn(&self, alloc: Global, core: u8, text: &[u8]) -> Result<Drawn, AllocError>
        requires laid { CallsLaid self.now }
        requires size { length text.now ≤ limit }
        ensures { IfOk result (DrawnTell (calls_told self.now) core (events_at self.now.config.now (ended_lines text.now)).0) }
    {
        let mut drawn = Drawn {
            events: 0,
            tickets: Items::new(alloc),
            flushes: Items::new(alloc),
        };
        let mut rest = text;
        while !rest.is_empty() {
            let (line, behind) = next_line(rest);
            let Some(event) = read_event(self.config, line) else {
                return Ok(drawn);
            };
            self.tell(&mut drawn, core, event)?;
            rest = behind;
        }
        Ok(drawn)
    }
}
