//! The lines of a script.

ghost use Rattle.std.specs.Prelude.{◌≡◌, ◌⊎◌, ◌+◌, ◌-◌, ◌*◌, ◌<◌, ◌≤◌, Some, length};
ghost use Rattle.mon_types.specs.Budgets.{event_budget, answer_budget};
ghost use Rattle.core_behaviour.specs.Core.{mode_now};
ghost use Rattle.core_behaviour.specs.Exits.{tried, ticks};
ghost use Rattle.core_machine.specs.Own.{limited};
ghost use Rattle.core_machine.specs.Meaning.{line_now, behind_line, in_line};
ghost use Rattle.core_machine.specs.Kept.{IsOwn, IsScript, IsBegun, IsWithin, IsSound, weight};
ghost use Rattle.core_machine.specs.Follows.{Leads, GoesBy};

use crate::progress::Progress;
use crate::step::Step;
use crate::work::{Purpose, Work};
use core_behaviour::Exit;
use core_context::Origin;
use hist::Why;
use mon_types::{Line, Mode, TICK_CAUSE};

/// The exit of a tick.
const TICKED: Exit = Exit {
    cause: TICK_CAUSE,
    value: 0,
};

impl Progress {
    /// The present line.
    fn line(&self) -> Line
        requires { self.now.at < length self.now.lines }
        ensures { result ≡ line_now self.now }
    {
        self.lines.as_slice()[self.at as usize]
    }

    /// The present line ends.
    pub(crate) fn end_line(&mut self)
        requires own { IsOwn self.old.own }
        requires script { IsScript self.old }
        requires there { self.old.at < length self.old.lines }
        requires events { self.old.own.counts.events < event_budget }
        requires answers { self.old.own.counts.answers ≤ answer_budget }
        ensures sound { IsSound self.new }
        ensures leads { Leads self.old self.new (behind_line self.old) }
        ensures own { self.new.own ≡ self.old.own }
        ensures begun { self.new.begun ≡ self.old.begun }
        ensures lines { self.new.lines ≡ self.old.lines }
        ensures at { self.new.at ≡ self.old.at + 1 }
        ensures work { self.new.work ≡ Work.Begins }
    {
        self.at += 1;
        self.work = Work::Begins;
    }

    /// A Limit at the present line ends the script.
    fn limit(&mut self) -> Step
        requires own { IsOwn self.old.own }
        requires script { IsScript self.old }
        requires there { self.old.at < length self.old.lines }
        requires events { self.old.own.counts.events < event_budget }
        requires answers { self.old.own.counts.answers ≤ answer_budget }
        ensures step { result ≡ Step.Stop (self.old.at + 1) Why.Limit }
        ensures new { self.new ≡ record self.old { own = limited self.old.own; work = Work.Over } }
        ensures sound { IsSound self.new }
    {
        self.own.limit();
        self.work = Work::Over;
        Step::Stop {
            line: self.at + 1,
            why: Why::Limit,
        }
    }

    /// Begins the next line, if there is one: its budget is looked at, and then a pending exit is tried.
    pub(crate) fn begin_line(&mut self) -> Option<Step>
        requires sound { IsSound self.old }
        requires work { self.old.work ≡ Work.Begins }
        ensures sound { IsSound self.new }
        ensures goes { GoesBy self.old result self.new }
        ensures low { weight self.new < weight self.old }
        ensures begun { (self.new.begun ≡ self.old.begun) ⊎ (self.new.begun ≡ self.old.own.counts) }
    {
        if self.at as usize == self.lines.len() {
            self.work = Work::Over;
            return None;
        }
        if self.own.is_spent() {
            return Some(self.limit());
        }
        self.begun = self.own.counts;
        match self.own.pending {
            None => self.work = Work::Line,
            Some(exit) => self.exit(Purpose::Retry, exit),
        }
        None
    }

    /// The line `tick`: an exit becomes pending in an enclave, and is tried at once, unless one is pending.
    fn tick(&mut self)
        requires own { IsOwn self.old.own }
        requires script { IsScript self.old }
        requires begun { IsBegun self.old }
        requires within { IsWithin self.old 1 0 }
        ensures sound { IsSound self.new }
        ensures leads { Leads self.old self.new (λ c. ticks self.old.own.config (mode_now c) c (behind_line self.old)) }
        ensures begun { self.new.begun ≡ self.old.begun }
        ensures low { weight self.new + 1 < 5 * (length self.old.lines - self.old.at) }
    {
        match self.own.mode {
            Mode::Os => self.end_line(),
            Mode::Inside { .. } => match self.own.pending {
                Some(_) => self.end_line(),
                None => self.pend(TICKED),
            },
        }
    }

    /// An exit becomes pending, and is tried.
    fn pend(&mut self, exit: Exit)
        requires own { IsOwn self.old.own }
        requires script { IsScript self.old }
        requires begun { IsBegun self.old }
        requires within { IsWithin self.old 1 0 }
        ensures sound { IsSound self.new }
        ensures leads { Leads self.old self.new (λ c. tried self.old.own.config exit (record c { pending = Some exit }) (behind_line self.old)) }
        ensures begun { self.new.begun ≡ self.old.begun }
        ensures lines { self.new.lines ≡ self.old.lines }
        ensures at { self.new.at ≡ self.old.at }
        ensures work { self.new.work ≡ Work.Calls (Origin.Machine exit.value) Purpose.Line self.old.own.serial }
    {
        self.own.pending = Some(exit);
        self.exit(Purpose::Line, exit);
    }

    /// Carries out the present line, up to its first move, if it makes one.
    pub(crate) fn carry_out(&mut self)
        requires own { IsOwn self.old.own }
        requires script { IsScript self.old }
        requires begun { IsBegun self.old }
        requires within { IsWithin self.old 1 0 }
        ensures sound { IsSound self.new }
        ensures leads { Leads self.old self.new (in_line self.old) }
        ensures begun { self.new.begun ≡ self.old.begun }
        ensures low { weight self.new + 1 < 5 * (length self.old.lines - self.old.at) }
    {
        match self.line() {
            Line::Make(call) => self.call(Origin::Line, Purpose::Line, call),
            Line::Tick => self.tick(),
            Line::SetPc(pc) => {
                self.own.set_pc(pc);
                self.end_line();
            }
            Line::SetReg(x, value) => {
                self.own.set_reg(x, value);
                self.end_line();
            }
            Line::Run(_) | Line::LoadWord(_) | Line::StoreWord(_, _) => unreachable!(),
        }
    }
}
