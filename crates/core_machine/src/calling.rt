//! Calls are begun, and what they leave is taken in.

ghost use Rattle.std.specs.Prelude.{◌≡◌, ◌<◌, ℕ, Some};
ghost use Rattle.protocol.specs.CallTree.{Over};
ghost use Rattle.core_behaviour.specs.Called.{called};
ghost use Rattle.core_behaviour.specs.Exits.{tried};
ghost use Rattle.call_machine.specs.Meaning.{tree_of};
ghost use Rattle.core_machine.specs.Meaning.{after_call};
ghost use Rattle.core_machine.specs.Kept.{IsOwn, IsScript, IsBegun, IsWithin, IsSound, MayCall, calls_before, weight};
ghost use Rattle.core_machine.specs.Follows.{GoesOn, Leads};

use crate::progress::Progress;
use crate::work::{Purpose, Work};
use core_behaviour::Exit;
use core_context::{After, Origin};
use mon_types::{Call, Reply};

impl Progress {
    /// Begins a call.
    pub(crate) fn call(&mut self, origin: Origin, purpose: Purpose, call: Call)
        requires own { IsOwn self.old.own }
        requires script { IsScript self.old }
        requires begun { IsBegun self.old }
        requires within { MayCall self.old purpose call }
        ensures sound { IsSound self.new }
        ensures leads { Leads self.old self.new (λ c. called self.old.own.config origin call c (after_call self.old purpose)) }
        ensures own { self.new.own ≡ self.old.own }
        ensures begun { self.new.begun ≡ self.old.begun }
        ensures lines { self.new.lines ≡ self.old.lines }
        ensures at { self.new.at ≡ self.old.at }
        ensures work { self.new.work ≡ Work.Calls origin purpose self.old.own.serial }
    {
        let own = &self.own;
        let serial = own.serial;
        self.call.begin_again(
            &own.config,
            own.number,
            serial,
            own.mode,
            call,
            own.counts.answers,
        );
        self.work = Work::Calls {
            origin,
            purpose,
            serial,
        };
    }

    /// Tries an exit.
    pub(crate) fn exit(&mut self, purpose: Purpose, exit: Exit)
        requires own { IsOwn self.old.own }
        requires script { IsScript self.old }
        requires begun { IsBegun self.old }
        requires within { IsWithin self.old (calls_before purpose) 0 }
        ensures sound { IsSound self.new }
        ensures leads { Leads self.old self.new (λ c. tried self.old.own.config exit c (after_call self.old purpose)) }
        ensures own { self.new.own ≡ self.old.own }
        ensures begun { self.new.begun ≡ self.old.begun }
        ensures lines { self.new.lines ≡ self.old.lines }
        ensures at { self.new.at ≡ self.old.at }
        ensures work { self.new.work ≡ Work.Calls (Origin.Machine exit.value) purpose self.old.own.serial }
    {
        let saved = self.own.contexts.current.save(exit.cause);
        let origin = Origin::Machine { value: exit.value };
        self.call(origin, purpose, Call::Aex { saved });
    }

    /// Takes in what a call, all of whose moves are made, leaves of the core; after a retry the line follows, and
    /// after a line's own call the next one.
    pub(crate) fn end_call(
        &mut self,
        origin: Origin,
        purpose: Purpose,
        reply: &Reply,
        change: &After,
    )
        requires sound { IsSound self.old }
        requires work { (serial : ℕ) × (self.old.work ≡ Work.Calls origin purpose serial) }
        requires over { tree_of self.old.call.work ≡ Over }
        requires ends { self.old.call.work.ends ≡ Some (reply.now, change.now) }
        ensures sound { IsSound self.new }
        ensures goes { GoesOn self.old self.new }
        ensures low { weight self.new < weight self.old }
        ensures begun { self.new.begun ≡ self.old.begun }
    {
        self.own.leave(origin, self.call.call(), change, reply);
        match purpose {
            Purpose::Retry => self.work = Work::Line,
            Purpose::Line => self.end_line(),
        }
    }
}
