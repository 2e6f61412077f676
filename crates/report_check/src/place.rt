//! Where a core stands in its log.

ghost use Rattle.std.specs.Prelude.{◌≡◌, ◌≤◌, ◌<◌, ◌-◌, ◌^◌, OnOk, IfSome};
ghost use Rattle.std.specs.Bool.{Decides};
ghost use Rattle.mon_model.specs.OnCore.{clears};
ghost use Rattle.legal_report.specs.Kept.{CallsLaid, calls_told};
ghost use Rattle.report_check.specs.Place.{IsOpenHere, inside_by, at_start, followed, entered, with_call, halted, IsPassed};

use crate::holds::Holds;
use hist::Entry;
use legal_report::Calls;
use mon_types::{Call, Owner};
use report_lines::EventLine;
use std::alloc::{AllocError, Global};

/// What is kept of the event lines of a core's log that were passed.
#[derive(Debug, Drop)]
pub struct Place {
    /// How many entry lines there were.
    pub entries: u32,
    /// One more than the highest of their tickets; 0 where there was none.
    pub above: u64,
    /// The highest line of a stop; 0 where there was none.
    pub stop: u32,
    /// The enclave that the core is inside.
    pub inside: Option<u64>,
    /// The touches since the core's last clearing entry.
    pub held: Holds,
}

/// Whether the call, which answered Ok, clears the translations of its core.
fn clears(call: &Call) -> bool
    ensures { result ≡ clears call.now }
{
    matches!(
        call,
        Call::Flush | Call::Enter { .. } | Call::Exit | Call::Aex { .. } | Call::SetSatp { .. }
    )
}

/// The enclave that a core is inside after the call, which answered Ok.
fn inside_by(call: &Call, before: Option<u64>) -> Option<u64>
    ensures { result ≡ inside_by call.now before }
{
    match *call {
        Call::Enter { e, .. } => Some(e),
        Call::Exit | Call::Aex { .. } => None,
        _ => before,
    }
}

impl Place {
    /// In front of the first line.
    pub fn at_start(alloc: Global) -> Place
        ensures { result ≡ at_start }
    {
        Place {
            entries: 0,
            above: 0,
            stop: 0,
            inside: None,
            held: Holds::new(alloc),
        }
    }

    /// Follows a call that answered Ok.
    fn follow(&mut self, call: &Call)
        ensures { self.new ≡ followed self.old call.now }
    {
        self.inside = inside_by(call, self.inside);
        if clears(call) {
            self.held.clear();
        }
    }

    /// Passes an entry line with this ticket, and with its call where it names one.
    fn enter(&mut self, ticket: u32, call: &Option<Entry>)
        requires { self.old.entries < 2 ^ 32 - 1 }
        ensures { self.new ≡ with_call call.now (entered self.old ticket) }
    {
        self.entries += 1;
        self.above = self.above.max(u64::from(ticket) + 1);
        match call {
            Some(entry) if entry.reply.is_ok() => self.follow(&entry.call),
            _ => {}
        }
    }

    /// Passes a stop at this line.
    fn halt(&mut self, line: u32)
        ensures { self.new ≡ halted self.old line }
    {
        self.stop = self.stop.max(line);
    }

    /// Passes an event line of the core's log.
    pub fn pass(&mut self, calls: &Calls, core: u8, event: EventLine) -> Result<(), AllocError>
        requires laid { CallsLaid calls.now }
        requires room { self.old.entries < 2 ^ 32 - 1 }
        ensures { OnOk result (IsPassed (calls_told calls.now) core event self.old self.new) }
    {
        match event {
            EventLine::Entry { ticket } => {
                self.enter(ticket, &calls.with_ticket(core, ticket));
                Ok(())
            }
            EventLine::Touch { region, since } => self.held.add(region, since),
            EventLine::Stop { line, .. } => {
                self.halt(line);
                Ok(())
            }
        }
    }

    /// Whether all tickets so far are below that of the block, if there is one.
    pub fn is_before(&self, blocked: Option<u32>) -> bool
        ensures { Decides result (IfSome blocked (λ b. self.now.above ≤ b)) }
    {
        match blocked {
            Some(at) => self.above <= u64::from(at),
            None => true,
        }
    }

    /// Whether the owner of a region is the OS, or the enclave that the core is inside.
    pub fn is_open_to(&self, owner: Owner) -> bool
        ensures { Decides result (IsOpenHere self.now.inside owner) }
    {
        match (owner, self.inside) {
            (Owner::Os, _) => true,
            (Owner::Enclave(e), Some(inside)) => inside == u64::from(e),
            (Owner::Enclave(_), None) => false,
        }
    }
}
