//! The first words of lines.

ghost use Rattle.std.specs.Prelude.{◌≡◌, ◌≤◌, IfSome};
ghost use Rattle.std.specs.List.{find};
ghost use Rattle.std.specs.Str.{bytes_eq};
ghost use Rattle.script_read.specs.Forms.{form_name, least, most, takes_os, form_said, pc_said, reg_said, core_said, form_named};

use crate::fault::LineKind;
use crate::said::Said;
use mon_types::{Call, Line};

/// The lines, by what follows their first word.
#[derive(Clone, Copy, Debug, PartialEq, Eq)]
pub enum Form {
    /// The name of the call of this number, then exactly so many arguments.
    Named(u64, usize),
    /// `ecall`, the number of a call, and up to six arguments.
    Ecall,
    /// `run` and a number of turns.
    Run,
    /// `tick` alone.
    Tick,
    /// `load` and a virtual address.
    LoadWord,
    /// `store`, a virtual address and a word.
    StoreWord,
    /// `pc` and an address.
    SetPc,
    /// `reg`, the number of a register, and a word.
    SetReg,
    /// `core` and the number of a core.
    Core,
}

/// The number of the call `assign`.
const ASSIGN: u64 = 3;

/// All forms. Of the calls only 15 has no line of its own, since the machine alone makes it.
const FORMS: [Form; 30] = [
    Form::Named(1, 1),
    Form::Named(2, 1),
    Form::Named(ASSIGN, 2),
    Form::Named(4, 0),
    Form::Named(5, 1),
    Form::Named(6, 3),
    Form::Named(7, 4),
    Form::Named(8, 5),
    Form::Named(9, 4),
    Form::Named(10, 1),
    Form::Named(11, 2),
    Form::Named(12, 1),
    Form::Named(13, 2),
    Form::Named(14, 0),
    Form::Named(16, 0),
    Form::Named(17, 2),
    Form::Named(18, 6),
    Form::Named(19, 1),
    Form::Named(20, 1),
    Form::Named(21, 1),
    Form::Named(22, 1),
    Form::Named(23, 4),
    Form::Ecall,
    Form::Run,
    Form::Tick,
    Form::LoadWord,
    Form::StoreWord,
    Form::SetPc,
    Form::SetReg,
    Form::Core,
];

impl Form {
    /// The form of the lines that begin with this word.
    pub fn of_word(word: &[u8]) -> Option<Form>
        ensures form { result ≡ form_named word.now }
        ensures few { IfSome result (λ form. most form ≤ 7) }
    {
        Form::among(&FORMS, word)
    }

    fn among(forms: &[Form], word: &[u8]) -> Option<Form>
        ensures { result ≡ find (λ form. bytes_eq word.now (form_name form)) forms.now }
    {
        for form in forms {
            if word == form.name().as_bytes() {
                return Some(*form);
            }
        }
        None
    }

    #[tactic(auto, unfolding(crate::specs::Forms::form_name))]
    fn name(&self) -> &'static str
        ensures { result.now ≡ form_name self.now }
    {
        match self {
            Form::Named(number, _) => Call::of_registers(*number, [0; 6]).name(),
            Form::Ecall => "ecall",
            Form::Run => "run",
            Form::Tick => "tick",
            Form::LoadWord => "load",
            Form::StoreWord => "store",
            Form::SetPc => "pc",
            Form::SetReg => "reg",
            Form::Core => "core",
        }
    }

    /// How many arguments a line of this form has at least.
    pub fn least(self) -> usize
        ensures { result ≡ least self }
    {
        match self {
            Form::Named(_, arity) => arity,
            Form::Ecall | Form::Run | Form::LoadWord | Form::SetPc | Form::Core => 1,
            Form::Tick => 0,
            Form::StoreWord | Form::SetReg => 2,
        }
    }

    /// How many arguments a line of this form has at most.
    pub fn most(self) -> usize
        ensures { result ≡ most self }
    {
        match self {
            Form::Ecall => 7,
            Form::Named(_, _)
            | Form::Run
            | Form::Tick
            | Form::LoadWord
            | Form::StoreWord
            | Form::SetPc
            | Form::SetReg
            | Form::Core => self.least(),
        }
    }

    /// Whether `os` may stand for the argument at this place, counted from 0.
    pub fn takes_os(self, place: usize) -> bool
        ensures { result ≡ takes_os self place }
    {
        match self {
            Form::Named(number, _) => number == ASSIGN && place == 1,
            Form::Ecall
            | Form::Run
            | Form::Tick
            | Form::LoadWord
            | Form::StoreWord
            | Form::SetPc
            | Form::SetReg
            | Form::Core => false,
        }
    }

    /// What the line with these arguments says, behind which zeros stand, where cores are below `count`.
    /// Numbers for which the line has no use are dropped. `BadNumber` where the address of `pc` is no
    /// multiple of 4, and where the register of `reg` is none of x1 to x31; `BadCore` where the core of
    /// `core` is not below the count.
    pub fn said(self, count: u8, args: &[u64; 7]) -> Result<Said, LineKind>
        ensures { result ≡ form_said count self args.now }
    {
        let [a, b, c, d, e, f, g] = *args;
        match self {
            Form::Named(number, _) => {
                let call = Call::of_registers(number, [a, b, c, d, e, f]);
                Ok(Said::Line(Line::Make(call)))
            }
            Form::Ecall => {
                let call = Call::of_registers(a, [b, c, d, e, f, g]);
                Ok(Said::Line(Line::Make(call)))
            }
            Form::Run => Ok(Said::Run(a)),
            Form::Tick => Ok(Said::Line(Line::Tick)),
            Form::LoadWord => Ok(Said::Line(Line::LoadWord(a))),
            Form::StoreWord => Ok(Said::Line(Line::StoreWord(a, b))),
            Form::SetPc => pc_said(a),
            Form::SetReg => reg_said(a, b),
            Form::Core => core_said(count, a),
        }
    }
}

fn pc_said(pc: u64) -> Result<Said, LineKind>
    ensures { result ≡ pc_said pc }
{
    if pc % 4 == 0 {
        Ok(Said::Line(Line::SetPc(pc)))
    } else {
        Err(LineKind::BadNumber)
    }
}

fn reg_said(x: u64, value: u64) -> Result<Said, LineKind>
    ensures { result ≡ reg_said x value }
{
    if (1..=31).contains(&x) {
        Ok(Said::Line(Line::SetReg(x as u8, value)))
    } else {
        Err(LineKind::BadNumber)
    }
}

fn core_said(count: u8, core: u64) -> Result<Said, LineKind>
    ensures { result ≡ core_said count core }
{
    if core < u64::from(count) {
        Ok(Said::Core(core as u8))
    } else {
        Err(LineKind::BadCore)
    }
}
