//! One core.

ghost use Rattle.std.specs.Prelude.{◌≡◌, ◌⊎◌, ◌+◌, ◌<◌, ◌≤◌, [], None, length};
ghost use Rattle.core_behaviour.specs.Lines.{core_behaviour};
ghost use Rattle.core_behaviour.specs.Course.{Course, first_of, left_of};
ghost use Rattle.protocol.specs.Views.{Moves};
ghost use Rattle.core_machine.specs.Meaning.{due, calling_of};
ghost use Rattle.core_machine.specs.Kept.{IsSound, IsWithin, weight};
ghost use Rattle.core_machine.specs.Effort.{effort, IsLeft, AreInBudget, IsFresh};
ghost use Rattle.core_machine.specs.Follows.{Follows, Gives, GoesBy, told, IsDueOutcome, IsDueStep};
ghost use Rattle.core_machine.specs.Start.{AreLines};

use crate::progress::Progress;
use crate::step::Step;
use crate::work::Work;
use mon_types::{Image, Items, Line, Mode};
use protocol::{Move, Outcome};
use std::marker::Model;

impl Progress {
    /// The move that is due, if one is.
    fn due(&self) -> Option<Move>
        requires { IsSound self.now }
        ensures { result ≡ due self.now }
    {
        match self.work {
            Work::Calls { .. } => match self.call.done() {
                None => Some(Move::InCall(self.call.next())),
                Some(_) => None,
            },
            _ => None,
        }
    }

    /// One step of private work, where no move is due; a stop, if there is one.
    fn go_on(&mut self) -> Option<Step>
        requires sound { IsSound self.old }
        requires due { due self.old ≡ None }
        requires more { self.old.work ≡ Work.Over → ⊥ }
        ensures sound { IsSound self.new }
        ensures goes { GoesBy self.old result self.new }
        ensures low { weight self.new < weight self.old }
        ensures begun { (self.new.begun ≡ self.old.begun) ⊎ (self.new.begun ≡ self.old.own.counts) }
    {
        match self.work {
            Work::Begins => self.begin_line(),
            Work::Line => {
                self.carry_out();
                None
            }
            Work::Calls {
                origin,
                purpose,
                ..
            } => match self.call.done() {
                Some((reply, change)) => {
                    self.end_call(origin, purpose, &reply, &change);
                    None
                }
                None => unreachable!(),
            },
            Work::Over => unreachable!(),
        }
    }

    /// The private work up to the next stop or move.
    fn next(&mut self) -> Option<Step>
        requires { IsSound self.old }
        ensures sound { IsSound self.new }
        ensures gives { (course : Course) (ms : Moves) → Follows self.old course ms → Gives self.new course ms result }
        ensures due { IsDueStep self.new result }
        ensures begun { (self.new.begun ≡ self.old.begun) ⊎ (self.new.begun ≡ self.old.own.counts) }
        ensures number { self.new.own.number ≡ self.old.own.number }
        ensures left { IsLeft (effort self.old) result (effort self.new) }
    {
        'work: loop {
            if let Some(due) = self.due() {
                return Some(Step::Move(due));
            }
            if let Work::Over = self.work {
                return None;
            }
            if let Some(stop) = self.go_on() {
                return Some(stop);
            }
        }
    }

    /// Goes on by the outcome of the move that is due.
    fn took(&mut self, outcome: &Outcome)
        requires sound { IsSound self.old }
        requires due { IsDueOutcome self.old outcome.now }
        ensures sound { IsSound self.new }
        ensures follows { (course : Course) (ms : Moves) → Follows self.old course ms → Follows self.new course (told (first_of (left_of course ms)) outcome.now ms) }
        ensures begun { self.new.begun ≡ self.old.begun }
        ensures within { IsWithin self.new 79 600 }
        ensures number { self.new.own.number ≡ self.old.own.number }
        ensures left { effort self.new < effort self.old }
    {
        match self.work {
            Work::Calls { .. } => {
                self.own.count(&self.call.next(), outcome);
                self.call.took(outcome);
                // A call makes few moves, so less is left of it.
                let _made = self.call.made();
            }
            _ => unreachable!(),
        }
    }
}

/// One core: it gives its next stop or move, and is told the outcome of each move.
#[derive(Debug, Drop)]
pub struct CoreMachine {
    progress: Progress,
}

impl Model for CoreMachine {
    ghost use Rattle.core_machine.specs.declared.progress.Progress.{Progress};
    ghost use Rattle.core_machine.specs.Kept.{IsSound};

    ghost Value = { Progress };

    ghost view = { λ m. m.progress };

    ghost invariant = { λ m. IsSound m.progress };
}

impl CoreMachine {
    /// The core of this number at the start of the machine of an image, with the lines of its script.
    pub(crate) fn start(image: &Image, number: u8, lines: Items<Line>) -> CoreMachine
        requires core { number < image.now.config.cores }
        requires starts { length image.now.starts ≡ image.now.config.cores }
        requires lines { AreLines lines }
        ensures number { result.own.number ≡ number }
        ensures follows { Follows result (core_behaviour image.now number lines) [] }
    {
        CoreMachine {
            progress: Progress::start(image, number, lines),
        }
    }

    /// Does the private work up to the next stop or move. None is the end of the script. A stop is given once; a move
    /// is given again until its outcome is told.
    pub fn next(&mut self) -> Option<Step>
        ensures gives { (course : Course) (ms : Moves) → Follows self.old course ms → Gives self.new course ms result }
        ensures due { IsDueStep self.new result }
        // Private work logs nothing but stops, so these are the counts where the line began.
        ensures begun { (self.new.begun ≡ self.old.begun) ⊎ (self.new.begun ≡ self.old.own.counts) }
        ensures number { self.new.own.number ≡ self.old.own.number }
        ensures left { IsLeft (effort self.old) result (effort self.new) }
        ensures budget { AreInBudget self.new.own.counts }
        ensures fresh { IsFresh self.new }
    {
        self.progress.next()
    }

    /// Goes on by the outcome of the move that `next` gave.
    pub fn took(&mut self, outcome: &Outcome)
        requires { IsDueOutcome self.old outcome.now }
        ensures follows { (course : Course) (ms : Moves) → Follows self.old course ms → Follows self.new course (told (first_of (left_of course ms)) outcome.now ms) }
        ensures begun { self.new.begun ≡ self.old.begun }
        // A line needs no more than 600 answers and 79 events, a Limit not counted, over the counts at its begin.
        ensures answers { self.new.own.counts.answers ≤ self.new.begun.answers + 600 }
        ensures events { self.new.own.counts.events ≤ self.new.begun.events + 79 }
        ensures number { self.new.own.number ≡ self.old.own.number }
        ensures left { effort self.new < effort self.old }
        ensures budget { AreInBudget self.new.own.counts }
    {
        self.progress.took(outcome);
    }

    /// For whom the core runs.
    pub fn mode(&self) -> Mode
        ensures { result ≡ self.now.own.mode }
    {
        self.progress.own.mode
    }

    /// The serial of the monitor call of which `next` gave a move and whose last outcome was not told yet.
    pub fn calling(&self) -> Option<u32>
        ensures { result ≡ calling_of self.now }
    {
        match self.progress.work {
            Work::Calls { serial, .. } => match self.progress.call.done() {
                None => Some(serial),
                Some(_) => None,
            },
            _ => None,
        }
    }
}
