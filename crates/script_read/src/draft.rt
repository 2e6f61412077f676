//! The lines of each core, as far as they are read.

ghost use Rattle.std.specs.Prelude.{◌≡◌, ◌<◌, ◌≤◌, ◌++◌, ◌∷◌, [], ℕ, List, length, replicate, slice_set, vec_len, IfOk, OnOk, IfSome};
ghost use Rattle.script_read.specs.declared.said.Said.{Said};
ghost use Rattle.script_read.specs.declared.said.Said.TheVariants as says;
ghost use Rattle.script_read.specs.Cores.{turns_in, turn_limit, core_limit, core_count, lists_for};
ghost use Rattle.script_read.specs.Reading.{said_next};
ghost use Rattle.script_read.specs.Drafts.{list_at, turns_with, Keeps, MayBeSaid, Adds};

use crate::fault::ScriptFault;
use crate::said::Said;
use mon_types::{Items, Line, Script};
use reader_answers::ParseError;
use std::alloc::{AllocError, Global};

/// The most turns that all `run` lines of a core have together.
pub const TURNS: u64 = 1_000_000;

/// What was read so far.
#[derive(Debug, Drop)]
pub struct Draft {
    /// The core whose lines come next.
    core: u8,
    /// The greatest core that was named.
    top: u8,
    /// The turns of each core's `run` lines together.
    turns: [u64; 256],
    /// The lines of each core that may be named.
    lists: Vec<Items<Line>>,
}

impl Draft {
    /// Nothing was read yet; cores are below `count`.
    pub fn new(alloc: Global, count: u8) -> Result<Draft, AllocError>
        requires { 1 ≤ count }
        ensures { IfOk result (λ draft. Keeps count [] draft) }
    {
        Ok(Draft {
            core: 0,
            top: 0,
            turns: [0; 256],
            lists: empty_lists(alloc, count)?,
        })
    }

    /// Takes what the line of this number says.
    pub fn take(&mut self, line: u32, said: Said) -> Result<(), ParseError<ScriptFault>>
        requires core { self.old.core < vec_len self.old.lists }
        requires said { MayBeSaid (vec_len self.old.lists) said }
        ensures { (count : ℕ) (before : List Said) → Keeps count before self.old → Adds count self.new result (said_next line before said) }
    {
        match said {
            Said::Line(made) => {
                self.push(made)?;
                Ok(())
            }
            Said::Run(turns) => self.run(line, turns),
            Said::Core(core) => {
                self.turn_to(core);
                Ok(())
            }
        }
    }

    /// The lines behind this are those of the core of this number.
    fn turn_to(&mut self, core: u8)
        ensures { (count : ℕ) (before : List Said) → Keeps count before self.old → core < count → Keeps count (before ++ says.Core core ∷ []) self.new }
    {
        self.core = core;
        if core > self.top {
            self.top = core;
        }
    }

    /// The line of this number is a run of so many turns.
    fn run(&mut self, line: u32, turns: u64) -> Result<(), ParseError<ScriptFault>>
        requires { self.old.core < vec_len self.old.lists }
        ensures { (count : ℕ) (before : List Said) → Keeps count before self.old → Adds count self.new result (said_next line before (says.Run turns)) }
    {
        let core = usize::from(self.core);
        let Some(all) = more_turns(self.turns[core], turns) else {
            return Err(ParseError::Fault(ScriptFault::TurnsOver { line }));
        };
        self.turns[core] = all;
        push_to(&mut self.lists, core, Line::Run(turns as u32))?;
        Ok(())
    }

    /// The core has one line more, which is no run.
    fn push(&mut self, made: Line) -> Result<(), AllocError>
        requires core { self.old.core < vec_len self.old.lists }
        requires no_run { turns_in made ≡ 0 }
        ensures { OnOk result ((count : ℕ) (before : List Said) → Keeps count before self.old → Keeps count (before ++ says.Line made ∷ []) self.new) }
    {
        push_to(&mut self.lists, usize::from(self.core), made)
    }

    /// The script, with a list of lines for each core below the count that is given, or up to the greatest
    /// core that was named.
    pub fn finish(self, cores: Option<u8>) -> Script
        ensures { (said : List Said) → Keeps (core_limit cores) said self → result.cores ≡ lists_for (core_count cores said) said }
    {
        let Draft { top, mut lists, .. } = self;
        let count = match cores {
            Some(count) => usize::from(count),
            None => usize::from(top) + 1,
        };
        lists.truncate(count);
        Script {
            cores: Items::from_vec(lists),
        }
    }
}

/// So many lists of no lines.
fn empty_lists(alloc: Global, count: u8) -> Result<Vec<Items<Line>>, AllocError>
    ensures { IfOk result (λ lists. lists.items ≡ replicate count []) }
{
    let mut lists = Vec::new(alloc);
    for _ in 0..count {
        lists.push(Items::new(alloc))?;
    }
    Ok(lists)
}

/// The turns before and these, where they are no more than they may be.
fn more_turns(before: u64, turns: u64) -> Option<u64>
    ensures sum { result ≡ turns_with before turns }
    ensures few { IfSome result (λ all. turns ≤ turn_limit) }
{
    let all = before.saturating_add(turns);
    if all <= TURNS { Some(all) } else { None }
}

fn push_to(lists: &mut [Items<Line>], core: usize, line: Line) -> Result<(), AllocError>
    requires { core < length lists.old }
    ensures { OnOk result (lists.new ≡ slice_set lists.old core (list_at lists.old core ++ line ∷ [])) }
{
    let own = &mut lists[core];
    own.push(line)
}
