//! The steps of one core.

ghost use Rattle.std.specs.Prelude.{◌≡◌, ◌+◌, ◌<◌, ◌≤◌, ℕ, true, false, not, if◌then◌else◌, length, Some};
ghost use Rattle.mon_types.specs.Budgets.{answer_budget};
ghost use Rattle.protocol.specs.Moves.{outcome_of};
ghost use Rattle.protocol.specs.Views.{logged, answered};
ghost use Rattle.core_machine.specs.Meaning.{due};
ghost use Rattle.core_machine.specs.Effort.{effort, IsFresh};
ghost use Rattle.lab.specs.Cores.{Adds, work_left};
ghost use Rattle.lab.specs.Steps.{CanStep, CanMake, MakesMove, TakesStep, EndsAtLast};

use crate::lab_core::LabCore;
use crate::logging::{answer_of, event_of, log_event};
use core_machine::Step;
use protocol::{Move, Outcome};
use word_list::WordList;

impl LabCore {
    /// Takes in what a move adds to the log, and the word that it gave.
    fn add(&mut self, number: u8, action: &Move, outcome: &Outcome)
        requires outcome { (word : ℕ) × (outcome.now ≡ outcome_of action.now word) }
        requires events { length (logged number self.old.log.events action.now outcome.now) ≤ self.old.log.spare }
        requires answers { length self.old.answers + length (answered action.now outcome.now) ≤ answer_budget }
        ensures { Adds number action.now outcome.now self.old self.new }
    {
        let event = event_of(number, self.log.events(), action, outcome);
        log_event(&mut self.log, event);
        self.answers.add(answer_of(action, outcome));
    }

    /// Makes the next move of the core.
    fn make(&mut self, number: u8, action: &Move, words: &mut WordList)
        requires can { CanMake number action.now self.old words.old }
        requires due { due self.old.machine ≡ Some action.now }
        requires fresh { IsFresh self.old.machine }
        requires goes { self.old.ended ≡ false }
        ensures makes { MakesMove number action.now self.old words.old self.new words.new }
        ensures goes { self.new.ended ≡ false }
        ensures left { effort self.new.machine < effort self.old.machine }
    {
        let serial = self.machine.calling().unwrap_or(0);
        let outcome = words.perform(number, serial, action);
        self.machine.took(&outcome);
        self.add(number, action, &outcome);
    }

    /// Does the private work of the core up to its next move, and makes that move. A core that has ended does nothing;
    /// one whose private work reaches the end of its script has then ended. False where it had ended before.
    pub fn step(&mut self, number: u8, words: &mut WordList) -> bool
        requires { CanStep number self.old words.old }
        ensures takes { TakesStep number self.old words.old self.new words.new }
        ensures answers { result ≡ not self.old.ended }
        ensures ends { EndsAtLast number self.old words.old self.new }
        ensures left { work_left self.new + (if self.old.ended then 0 else 1) ≤ work_left self.old }
        ensures stays { self.old.ended ≡ true → self.new ≡ self.old }
    {
        if self.ended {
            return false;
        }
        'work: loop {
            match self.machine.next() {
                None => {
                    self.ended = true;
                    return true;
                }
                Some(Step::Stop { line, why }) => {
                    self.add(number, &Move::Stop { line, why }, &Outcome::Done);
                }
                Some(Step::Move(action)) => {
                    self.make(number, &action, words);
                    return true;
                }
            }
        }
    }
}
