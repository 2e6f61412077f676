//! One turn: an instruction is fetched, decoded and carried out.

ghost use Rattle.std.specs.Prelude.{◌≡◌, ◌+◌, ◌<◌, ◌≤◌, ◌&&◌, true, length};
ghost use Rattle.mon_types.specs.Budgets.{event_budget, answer_budget, line_events, line_answers};
ghost use Rattle.rv_decode.specs.Decoded.{decoded};
ghost use Rattle.rv_decode.specs.Table.{IsInst};
ghost use Rattle.rv_exec.specs.Effects.{effect_of};
ghost use Rattle.rv_exec.specs.Loads.{IsSize};
ghost use Rattle.rv_exec.specs.Sizes.{IsAmoSize, HasSizes};
ghost use Rattle.solo.specs.Bounds.{call_answers, instruction_answers, instruction_events};
ghost use Rattle.core_access.specs.Causes.{is_aligned};
ghost use Rattle.solo.specs.Core.{mode_now, is_os, is_inside, came_back};
ghost use Rattle.solo.specs.Calls.{guest_called};
ghost use Rattle.solo.specs.Turns.{trapped, put, put_bytes, loads, stores, combines, fences_in, carried_out, executed, turned_at, turned};

use crate::one_core::OneCore;
use core_access::{
    ILLEGAL_INSTRUCTION, combine_in, instruction_at, is_aligned, load_from, misaligned, place_in,
    store_in,
};
use hist::{Event, Why};
use mon_types::Mode;
use rv_decode::{Inst, decode};
use rv_exec::{Effect, execute};
use rv_ext::AmoOp;
use sv39_pte::Access;

/// An atomic instruction: the address and the size of its lane, what it makes of the old value and the
/// operand, and where the old value goes.
#[derive(Clone, Copy)]
struct Atomic {
    va: u64,
    size: u8,
    op: AmoOp,
    operand: u64,
    rd: u8,
}

impl OneCore {
    /// Whether the core, which was in that mode, came back to the OS from an enclave that a script line
    /// entered.
    fn came_back(&self, was: Mode, by_line: bool) -> bool
        ensures { result ≡ (is_inside was && is_os (mode_now self.now) && by_line) }
    {
        was != Mode::Os && self.mode() == Mode::Os && by_line
    }

    /// A trap; whether a `run` line ends with it.
    pub fn trap(&mut self, line: u32, cause: u64, value: u64) -> bool
        requires answers { length self.old.answers + call_answers ≤ answer_budget }
        requires events { length self.old.log < event_budget }
        ensures core { self.new ≡ (trapped line self.old cause value).core }
        ensures ends { result ≡ (trapped line self.old cause value).ends }
        ensures answers { length self.new.answers ≤ length self.old.answers + call_answers }
        ensures events { length self.new.log ≤ length self.old.log + 1 }
    {
        let mode = self.mode();
        match mode {
            Mode::Os => {
                self.log.add(Event::Stop {
                    line,
                    why: Why::Trap { cause, value },
                });
                true
            }
            Mode::Inside { .. } => {
                let by_line = self.guest.by_line;
                self.exit(cause, value);
                self.came_back(mode, by_line)
            }
        }
    }

    /// Stores a word.
    pub fn put(&mut self, place: u64, value: u64)
        ensures { self.new ≡ put self.old place value }
    {
        self.memory.put(Some(place), value);
    }

    /// Stores the low bytes of a value at an address. Fewer than 8 change the word that is loaded before.
    fn put_bytes(&mut self, place: u64, va: u64, size: u8, value: u64)
        requires size { IsSize size }
        requires aligned { is_aligned va size ≡ true }
        requires answers { length self.old.answers < answer_budget }
        ensures core { self.new ≡ put_bytes self.old place va size value }
        ensures answers { length self.new.answers ≤ length self.old.answers + 1 }
    {
        if size == 8 {
            self.put(place, value);
        } else {
            let word = self.read(place);
            self.put(place, store_in(word, va, size, value));
        }
    }

    /// A load; whether the `run` line ends with it.
    fn load(&mut self, line: u32, va: u64, size: u8, signed: bool, rd: u8) -> bool
        requires size { IsSize size }
        requires answers { length self.old.answers + instruction_answers ≤ answer_budget }
        requires events { length self.old.log + instruction_events ≤ event_budget }
        ensures core { self.new ≡ (loads line self.old va size signed rd).core }
        ensures ends { result ≡ (loads line self.old va size signed rd).ends }
        ensures answers { length self.new.answers ≤ length self.old.answers + instruction_answers }
        ensures events { length self.new.log ≤ length self.old.log + instruction_events }
    {
        if !is_aligned(va, size) {
            return self.trap(line, misaligned(Access::Load), va);
        }
        match self.access(va, Access::Load) {
            Err(cause) => self.trap(line, cause, va),
            Ok(page) => {
                let word = self.read(place_in(page, va));
                let value = load_from(word, va, size, signed);
                self.contexts.current.set(rd, value);
                self.contexts.current.advance();
                false
            }
        }
    }

    /// A store; whether the `run` line ends with it.
    fn store(&mut self, line: u32, va: u64, size: u8, value: u64) -> bool
        requires size { IsSize size }
        requires answers { length self.old.answers + instruction_answers ≤ answer_budget }
        requires events { length self.old.log + instruction_events ≤ event_budget }
        ensures core { self.new ≡ (stores line self.old va size value).core }
        ensures ends { result ≡ (stores line self.old va size value).ends }
        ensures answers { length self.new.answers ≤ length self.old.answers + instruction_answers }
        ensures events { length self.new.log ≤ length self.old.log + instruction_events }
    {
        if !is_aligned(va, size) {
            return self.trap(line, misaligned(Access::Store), va);
        }
        match self.access(va, Access::Store) {
            Err(cause) => self.trap(line, cause, va),
            Ok(page) => {
                self.put_bytes(place_in(page, va), va, size, value);
                self.contexts.current.advance();
                false
            }
        }
    }

    /// An atomic instruction; whether the `run` line ends with it.
    fn combine(&mut self, line: u32, atomic: &Atomic) -> bool
        requires size { IsAmoSize atomic.now.size }
        requires answers { length self.old.answers + instruction_answers ≤ answer_budget }
        requires events { length self.old.log + instruction_events ≤ event_budget }
        ensures core { self.new ≡ (combines line self.old atomic.now.va atomic.now.size atomic.now.op atomic.now.operand atomic.now.rd).core }
        ensures ends { result ≡ (combines line self.old atomic.now.va atomic.now.size atomic.now.op atomic.now.operand atomic.now.rd).ends }
        ensures answers { length self.new.answers ≤ length self.old.answers + instruction_answers }
        ensures events { length self.new.log ≤ length self.old.log + instruction_events }
    {
        let Atomic {
            va,
            size,
            op,
            operand,
            rd,
        } = *atomic;
        if !is_aligned(va, size) {
            return self.trap(line, misaligned(Access::Store), va);
        }
        match self.access(va, Access::Store) {
            Err(cause) => self.trap(line, cause, va),
            Ok(page) => {
                let place = place_in(page, va);
                let word = self.read(place);
                self.put(place, combine_in(op, word, va, size, operand));
                let old = load_from(word, va, size, true);
                self.contexts.current.set(rd, old);
                self.contexts.current.advance();
                false
            }
        }
    }

    /// SFENCE.VMA, whose word this is; whether the `run` line ends with it.
    fn fence(&mut self, line: u32, word: u32) -> bool
        requires answers { length self.old.answers + call_answers ≤ answer_budget }
        requires events { length self.old.log < event_budget }
        ensures core { self.new ≡ (fences_in (mode_now self.old) line self.old word).core }
        ensures ends { result ≡ (fences_in (mode_now self.old) line self.old word).ends }
        ensures answers { length self.new.answers ≤ length self.old.answers + call_answers }
        ensures events { length self.new.log ≤ length self.old.log + 1 }
    {
        match self.mode() {
            Mode::Os => {
                self.guest.cache.clear();
                self.contexts.current.advance();
                false
            }
            Mode::Inside { .. } => self.trap(line, ILLEGAL_INSTRUCTION, u64::from(word)),
        }
    }

    /// ECALL; whether the `run` line ends with it.
    fn ecall(&mut self) -> bool
        requires answers { length self.old.answers + call_answers ≤ answer_budget }
        requires events { length self.old.log < event_budget }
        ensures core { self.new ≡ guest_called self.old }
        ensures ends { result ≡ came_back self.old (guest_called self.old) }
        ensures answers { length self.new.answers ≤ length self.old.answers + call_answers }
        ensures events { length self.new.log ≤ length self.old.log + 1 }
    {
        let mode = self.mode();
        let by_line = self.guest.by_line;
        self.call_of_guest();
        self.came_back(mode, by_line)
    }

    /// Carries out what an instruction asks for, whose word this is; whether the `run` line ends with it.
    fn carry_out_effect(&mut self, line: u32, word: u32, effect: Effect) -> bool
        requires sizes { HasSizes effect }
        requires answers { length self.old.answers + instruction_answers ≤ answer_budget }
        requires events { length self.old.log + instruction_events ≤ event_budget }
        ensures core { self.new ≡ (carried_out line self.old word effect).core }
        ensures ends { result ≡ (carried_out line self.old word effect).ends }
        ensures answers { length self.new.answers ≤ length self.old.answers + instruction_answers }
        ensures events { length self.new.log ≤ length self.old.log + instruction_events }
    {
        match effect {
            Effect::Next { pc, rd, value } => {
                self.contexts.current.pc = pc;
                self.contexts.current.set(rd, value);
                false
            }
            Effect::Load {
                address,
                size,
                signed,
                rd,
            } => self.load(line, address, size, signed, rd),
            Effect::Store {
                address,
                size,
                value,
            } => self.store(line, address, size, value),
            Effect::Amo {
                address,
                size,
                op,
                value,
                rd,
            } => {
                let atomic = Atomic {
                    va: address,
                    size,
                    op,
                    operand: value,
                    rd,
                };
                self.combine(line, &atomic)
            }
            Effect::Call => self.ecall(),
            Effect::Fence => {
                self.contexts.current.advance();
                false
            }
            Effect::Flush => self.fence(line, word),
            Effect::Trap { cause, value } => self.trap(line, cause, value),
        }
    }

    /// What an instruction asks for.
    fn effect(&self, inst: &Inst) -> Effect
        requires { IsInst inst.now }
        ensures effect { result ≡ effect_of inst.now self.now.contexts.current.pc self.now.contexts.current.regs }
        ensures sizes { HasSizes result }
    {
        execute(inst, self.contexts.current.pc, &self.contexts.current.regs)
    }

    /// Decodes and carries out a word; whether the `run` line ends with it.
    fn execute(&mut self, line: u32, word: u32) -> bool
        requires answers { length self.old.answers + instruction_answers ≤ answer_budget }
        requires events { length self.old.log + instruction_events ≤ event_budget }
        ensures core { self.new ≡ (executed line self.old word (decoded word)).core }
        ensures ends { result ≡ (executed line self.old word (decoded word)).ends }
        ensures answers { length self.new.answers ≤ length self.old.answers + instruction_answers }
        ensures events { length self.new.log ≤ length self.old.log + instruction_events }
    {
        match decode(word) {
            None => self.trap(line, ILLEGAL_INSTRUCTION, u64::from(word)),
            Some(inst) => {
                let effect = self.effect(&inst);
                self.carry_out_effect(line, word, effect)
            }
        }
    }

    /// One turn of a `run` line; whether the line ends with it. It needs at most 600 answers and 79 events.
    pub fn turn(&mut self, line: u32) -> bool
        requires answers { length self.old.answers + line_answers ≤ answer_budget }
        requires events { length self.old.log + line_events ≤ event_budget }
        ensures core { self.new ≡ (turned line self.old).core }
        ensures ends { result ≡ (turned line self.old).ends }
        ensures answers { length self.new.answers ≤ length self.old.answers + line_answers }
        ensures events { length self.new.log < length self.old.log + line_events }
    {
        let pc = self.contexts.current.pc;
        if !is_aligned(pc, 4) {
            return self.trap(line, misaligned(Access::Fetch), pc);
        }
        match self.access(pc, Access::Fetch) {
            Err(cause) => self.trap(line, cause, pc),
            Ok(page) => {
                let word = self.read(place_in(page, pc));
                self.execute(line, instruction_at(pc, word))
            }
        }
    }
}
