//! Locks are tried, and rows are read.

ghost use Rattle.std.specs.Prelude.{◌≡◌, ◌+◌, ◌-◌, ◌∷◌};
ghost use Rattle.mon_types.specs.Objects.{width};
ghost use Rattle.protocol.specs.declared.action.Action.TheVariants as actions;
ghost use Rattle.core_behaviour.specs.Called.{found_by};
ghost use Rattle.call_machine.specs.Meaning.{so_far, goes_on, issuer, found, row_part, phase_tree, IsOutcome};
ghost use Rattle.call_machine.specs.Count.{locks_left, words_left, most_decided};
ghost use Rattle.call_machine.specs.Stands.{IsBetween, IsTrying, IsRowRead, IsAt, HasTaken};

use crate::outcomes::word_of;
use crate::phase::{Lock, Phase};
use crate::rows::{take_row, width_of};
use crate::work::Work;
use lock_plan::{add_tried, next};
use mon_types::{ObjectId, Reply};
use protocol::Outcome;

impl Work {
    /// Tries the next object of the plan; where there is none, all are held, and the reply is decided.
    pub(crate) fn go_on(&mut self)
        requires { IsBetween self.old }
        ensures at { IsAt self.old self.new self.old.ends (goes_on self.old.config (issuer self.old) self.old.call (found self.old)) (locks_left self.old + words_left self.old + most_decided self.old.config self.old.call) }
        ensures found { so_far self.new ≡ found self.old }
    {
        match next(&self.config, self.core, self.mode, &self.call, &self.held) {
            Some(object) => {
                add_tried(&mut self.tried, object);
                self.phase = Phase::Tries { object };
            }
            None => self.decide(),
        }
    }

    /// The lock of this object was tried.
    pub(crate) fn lock_tried(&mut self, object: ObjectId, outcome: &Outcome)
        requires trying { IsTrying self.old object 0 }
        requires outcome { IsOutcome (phase_tree self.old (Phase.Tries object)) outcome.now }
        ensures at { HasTaken self.old self.new (Phase.Tries object) outcome.now }
        ensures found { so_far self.new ≡ found_by (actions.TryLock object) outcome.now (found self.old) }
    {
        match *outcome {
            Outcome::Taken => self.phase = Phase::Reads { object, at: 0 },
            Outcome::HeldBy { core, serial } => {
                self.reply = Reply::ConcurrentCall {
                    lock: object,
                    holder: core,
                    serial,
                };
                self.phase = Phase::Refuses;
            }
            _ => unreachable!(),
        }
    }

    /// A word was read at this place of the row of an object that is held.
    pub(crate) fn word_read(&mut self, object: ObjectId, at: u8, outcome: &Outcome)
        requires { IsTrying self.old object at }
        ensures at { HasTaken self.old self.new (Phase.Reads object at) outcome.now }
        ensures found { so_far self.new ≡ found_by (actions.Read object at) outcome.now ((object, row_part self.old) ∷ found self.old) }
    {
        self.stood.push(word_of(outcome));
        if at + 1 < width_of(object) {
            self.phase = Phase::Reads { object, at: at + 1 };
        } else {
            self.row_read(object);
        }
    }

    /// The whole row of an object was read.
    fn row_read(&mut self, object: ObjectId)
        requires { IsRowRead self.old object }
        ensures at { IsAt self.old self.new self.old.ends (goes_on self.old.config (issuer self.old) self.old.call ((object, row_part self.old) ∷ found self.old)) ((locks_left self.old - 1) + words_left self.old + most_decided self.old.config self.old.call) }
        ensures found { so_far self.new ≡ (object, row_part self.old) ∷ found self.old }
    {
        let from = self.stood.len() - usize::from(width_of(object));
        take_row(&self.config, object, &self.stood[from..], &mut self.held);
        self.locks.push(Lock { object });
        self.go_on();
    }
}
