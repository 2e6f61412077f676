//! The log of a core.

ghost use Rattle.std.specs.Prelude.{◌≡◌, ◌+◌, ◌-◌, ◌<◌, [], ◌∷◌, ◌++◌, IfOk};

use crate::event::Event;
use std::alloc::{AllocError, Global};
use std::marker::Model;

/// A list of events with room for more, taken when the log was made. Contracts see the events and
/// how many more there is room for.
#[derive(Debug, Drop)]
pub struct Log {
    events: Vec<Event>,
    spare: u32,
}

impl Model for Log {
    ghost use Rattle.std.specs.Prelude.{◌≤◌, ◌+◌, vec_len, vec_capacity};
    ghost use Rattle.hist.specs.Logged.{Logged};

    ghost Value = { Logged };

    ghost view = { λ l. record { events = l.events.items; spare = l.spare } };

    ghost invariant = { λ l. vec_len l.events + l.spare ≤ vec_capacity l.events };
}

impl Log {
    /// A log with no events and room for so many.
    pub fn new(alloc: Global, events: u32) -> Result<Log, AllocError>
        ensures { IfOk result (λ l. l ≡ record { events = []; spare = events }) }
    {
        Ok(Log {
            events: Vec::with_capacity(alloc, events as usize)?,
            spare: events,
        })
    }

    /// Appends an event. Takes no memory.
    pub fn add(&mut self, event: Event)
        requires { 0 < self.old.spare }
        ensures events { self.new.events ≡ self.old.events ++ event ∷ [] }
        ensures spare { self.new.spare ≡ self.old.spare - 1 }
    {
        self.spare -= 1;
        self.events.push_reserved(event);
    }

    /// For how many more events there is room.
    pub fn spare(&self) -> u32
        ensures { result ≡ self.now.spare }
    {
        self.spare
    }

    /// The events, the oldest first.
    pub fn events(&self) -> &[Event]
        ensures { result.now ≡ self.now.events }
    {
        self.events.as_slice()
    }
}
