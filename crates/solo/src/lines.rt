//! The lines of a script.

ghost use Rattle.std.specs.Prelude.{◌≡◌, ◌+◌, ◌<◌, ◌≤◌, false, length};
ghost use Rattle.mon_types.specs.Budgets.{event_budget, answer_budget, line_events, line_answers};
ghost use Rattle.solo.specs.Bounds.{RunsNoTurns};
ghost use Rattle.solo.specs.Core.{mode_now};
ghost use Rattle.solo.specs.Calls.{ticked};
ghost use Rattle.solo.specs.Solo.{word_loaded, word_stored, pc_set, reg_set, is_spent, limited, turns, core_after, core_from};

use crate::one_core::OneCore;
use core_access::{is_aligned, misaligned, place_in};
use core_context::Origin;
use hist::{Event, Why};
use mon_types::{ANSWER_BUDGET, LINE_ANSWERS, LINE_EVENTS, Line, Mode, TICK_CAUSE};
use sv39_pte::Access;

impl OneCore {
    /// Leaves the enclave, if the core is inside one.
    fn tick(&mut self)
        requires answers { length self.old.answers + line_answers ≤ answer_budget }
        requires events { length self.old.log + line_events ≤ event_budget }
        ensures core { self.new ≡ ticked (mode_now self.old) self.old }
        ensures answers { length self.new.answers ≤ length self.old.answers + line_answers }
        ensures events { length self.new.log < length self.old.log + line_events }
    {
        if self.mode() != Mode::Os {
            self.exit(TICK_CAUSE, 0);
        }
    }

    /// Loads the 8 bytes at an address into x10.
    fn load_word(&mut self, line: u32, va: u64)
        requires answers { length self.old.answers + line_answers ≤ answer_budget }
        requires events { length self.old.log + line_events ≤ event_budget }
        ensures core { self.new ≡ word_loaded line self.old va }
        ensures answers { length self.new.answers ≤ length self.old.answers + line_answers }
        ensures events { length self.new.log < length self.old.log + line_events }
    {
        if !is_aligned(va, 8) {
            self.trap(line, misaligned(Access::Load), va);
            return;
        }
        match self.access(va, Access::Load) {
            Err(cause) => {
                self.trap(line, cause, va);
            }
            Ok(page) => {
                let word = self.read(place_in(page, va));
                self.contexts.current.set(10, word);
            }
        }
    }

    /// Stores 8 bytes at an address.
    fn store_word(&mut self, line: u32, va: u64, value: u64)
        requires answers { length self.old.answers + line_answers ≤ answer_budget }
        requires events { length self.old.log + line_events ≤ event_budget }
        ensures core { self.new ≡ word_stored line self.old va value }
        ensures answers { length self.new.answers ≤ length self.old.answers + line_answers }
        ensures events { length self.new.log < length self.old.log + line_events }
    {
        if !is_aligned(va, 8) {
            self.trap(line, misaligned(Access::Store), va);
            return;
        }
        match self.access(va, Access::Store) {
            Err(cause) => {
                self.trap(line, cause, va);
            }
            Ok(page) => self.put(place_in(page, va), value),
        }
    }

    /// Sets the pc, for the OS alone.
    fn set_pc(&mut self, pc: u64)
        ensures { self.new ≡ pc_set (mode_now self.old) self.old pc }
    {
        if self.mode() == Mode::Os {
            self.contexts.current.pc = pc;
        }
    }

    /// Sets a register, for the OS alone.
    fn set_reg(&mut self, x: u8, value: u64)
        ensures { self.new ≡ reg_set (mode_now self.old) self.old x value }
    {
        if self.mode() == Mode::Os {
            self.contexts.current.set(x, value);
        }
    }

    /// Whether too little is left of a budget for one more line or turn.
    fn is_spent(&self) -> bool
        ensures { result ≡ is_spent self.now }
    {
        self.log.spare() < LINE_EVENTS || ANSWER_BUDGET - LINE_ANSWERS < self.answers.len()
    }

    /// Logs a Limit at this line.
    fn limit(&mut self, line: u32)
        requires { length self.old.log < event_budget }
        ensures core { self.new ≡ (limited line self.old).core }
        ensures events { length self.new.log ≡ length self.old.log + 1 }
    {
        self.log.add(Event::Stop {
            line,
            why: Why::Limit,
        });
    }

    /// Up to so many turns; whether the script is over with them, which it is after a Limit.
    fn take_turns(&mut self, line: u32, count: u32) -> bool
        requires { length self.old.log < event_budget }
        ensures core { self.new ≡ (turns line count self.old).core }
        ensures over { result ≡ (turns line count self.old).over }
        ensures room { result ≡ false → length self.new.log < event_budget }
    {
        for turn in 0..count {
            if self.is_spent() {
                self.limit(line);
                return true;
            }
            if self.turn(line) {
                return false;
            }
        }
        false
    }

    /// Carries out a line, whose number this is; whether the script is over with it, which it is after a
    /// Limit.
    fn carry_out(&mut self, number: u32, line: &Line) -> bool
        requires answers { length self.old.answers + line_answers ≤ answer_budget }
        requires events { length self.old.log + line_events ≤ event_budget }
        ensures core { self.new ≡ (core_after number self.old line.now).core }
        ensures over { result ≡ (core_after number self.old line.now).over }
        ensures room { result ≡ false → length self.new.log < event_budget }
        // A line that runs no turns needs at most 600 answers and 79 events.
        ensures answers { RunsNoTurns line.now → length self.new.answers ≤ length self.old.answers + line_answers }
        ensures events { RunsNoTurns line.now → length self.new.log < length self.old.log + line_events }
    {
        match line {
            Line::Make(call) => self.make(Origin::Line, call),
            Line::Run(count) => return self.take_turns(number, *count),
            Line::Tick => self.tick(),
            Line::LoadWord(va) => self.load_word(number, *va),
            Line::StoreWord(va, value) => self.store_word(number, *va, *value),
            Line::SetPc(pc) => self.set_pc(*pc),
            Line::SetReg(x, value) => self.set_reg(*x, *value),
        }
        false
    }

    /// Carries out the lines of a script, up to a Limit before a line or a turn for which too little is left
    /// of a budget.
    pub fn run(&mut self, script: &[Line])
        requires few { length script.now ≤ 1048576 }
        requires room { length self.old.log < event_budget }
        ensures { self.new ≡ core_from self.old 1 script.now }
    {
        for (i, line) in script.iter().enumerate() {
            let number = i as u32 + 1;
            if self.is_spent() {
                self.limit(number);
                return;
            }
            if self.carry_out(number, line) {
                return;
            }
        }
    }
}
