//! One monitor call.

ghost use Rattle.std.specs.Prelude.{◌≡◌, [], ◌+◌, ◌≤◌, ◌<◌, ℕ, Some, None};
ghost use Rattle.mon_types.specs.Modes.{own_slot, own_thread};
ghost use Rattle.mon_types.specs.Budgets.{answer_budget};
ghost use Rattle.protocol.specs.declared.action.Move.TheVariants as moves;
ghost use Rattle.protocol.specs.CallTree.{call_tree, Over};
ghost use Rattle.protocol.specs.Views.{Moves, next_serial};
ghost use Rattle.protocol.specs.Permitted.{HasSerial, Permitted};
ghost use Rattle.call_machine.specs.Meaning.{so_far, found, IsFoundBy, tree_of, Heads, IsOutcome, LedTo, after, ends_after};
ghost use Rattle.call_machine.specs.Count.{most_moves};

use crate::begin::has_words;
use crate::phase::Phase;
use crate::work::Work;
use arrayvec::ArrayVec;
use core_context::After;
use lock_plan::Held;
use mon_types::{Call, Config, Mode, Reply, Tried};
use protocol::{Action, Outcome};
use std::marker::Model;

/// No object.
const NOTHING_TRIED: Tried = Tried {
    enclaves: 0,
    threads: 0,
    regions: 0,
    cells: 0,
};

/// One monitor call of a core, move by move.
#[derive(Debug, Drop)]
pub struct CallMachine {
    work: Work,
    made: u32,
}

impl Model for CallMachine {
    ghost use Rattle.call_machine.specs.Kept.{Called, IsKept};

    ghost Value = { Called };

    ghost view = { λ m. record { work = m.work; made = m.made } };

    ghost invariant = { λ m. IsKept m.work m.made };
}

impl CallMachine {
    /// A call by a core of the machine, in this mode, which has made `serial` calls before and has so many
    /// answers.
    pub fn begin(
        config: &Config,
        core: u8,
        serial: u32,
        mode: Mode,
        call: Call,
        answers: u32,
    ) -> CallMachine
        requires core { core < config.now.cores }
        requires slot { own_slot mode < 8 }
        requires thread { own_thread mode < 16 }
        requires answers { answers ≤ answer_budget }
        ensures tree { tree_of result.work ≡ call_tree config.now (record { core = core; serial = serial; mode = mode; answers = answers }) call }
        ensures made { result.made ≡ 0 }
        ensures ends { result.work.ends ≡ None }
        ensures found { so_far result.work ≡ [] }
        ensures config { result.work.config ≡ config.now }
        ensures call { result.work.call ≡ call }
        ensures core { result.work.core ≡ core }
        ensures mode { result.work.mode ≡ mode }
    {
        let _cores = config.cores();
        has_words(&call);
        let mut work = Work {
            config: *config,
            core,
            serial,
            mode,
            call,
            answers,
            locks: ArrayVec::new(),
            stood: ArrayVec::new(),
            held: Held::new(),
            tried: NOTHING_TRIED,
            places: ArrayVec::new(),
            ptes: ArrayVec::new(),
            page: ArrayVec::new(),
            input: None,
            reply: Reply::Unsupported,
            wanted: ArrayVec::new(),
            ends: None,
            phase: Phase::Over,
        };
        work.start();
        CallMachine { work, made: 0 }
    }

    /// Another call in its place. Touches no more of the lists than stands in them.
    pub fn begin_again(
        &mut self,
        config: &Config,
        core: u8,
        serial: u32,
        mode: Mode,
        call: Call,
        answers: u32,
    )
        requires core { core < config.now.cores }
        requires slot { own_slot mode < 8 }
        requires thread { own_thread mode < 16 }
        requires answers { answers ≤ answer_budget }
        ensures tree { tree_of self.new.work ≡ call_tree config.now (record { core = core; serial = serial; mode = mode; answers = answers }) call }
        ensures made { self.new.made ≡ 0 }
        ensures ends { self.new.work.ends ≡ None }
        ensures found { so_far self.new.work ≡ [] }
        ensures config { self.new.work.config ≡ config.now }
        ensures call { self.new.work.call ≡ call }
        ensures core { self.new.work.core ≡ core }
        ensures mode { self.new.work.mode ≡ mode }
    {
        let _cores = config.cores();
        has_words(&call);
        self.work.config = *config;
        self.work.core = core;
        self.work.serial = serial;
        self.work.mode = mode;
        self.work.call = call;
        self.work.answers = answers;
        self.work.locks.clear();
        self.work.stood.clear();
        self.work.held.clear();
        self.work.tried = NOTHING_TRIED;
        self.work.places.clear();
        self.work.ptes.clear();
        self.work.page.clear();
        self.work.input = None;
        self.work.ends = None;
        self.work.start();
        self.made = 0;
    }

    /// The next move. It is permitted to every view whose call under way has made the moves that lead to what is
    /// left; where it is a Draw, the view has fewer than 16,384 entries.
    pub fn next(&self) -> Action
        requires { tree_of self.now.work ≡ Over → ⊥ }
        ensures first { Heads (tree_of self.now.work) result }
        ensures permitted { (core : ℕ) (ms : Moves) → LedTo self.now.work core ms → HasSerial (next_serial core ms) result → Permitted self.now.work.config core ms (moves.InCall result) }
    {
        self.work.next()
    }

    /// Goes on by the outcome of the next move.
    pub fn took(&mut self, outcome: &Outcome)
        requires { IsOutcome (tree_of self.old.work) outcome.now }
        ensures tree { tree_of self.new.work ≡ after (tree_of self.old.work) outcome.now }
        ensures made { self.new.made ≡ self.old.made + 1 }
        ensures ends { self.new.work.ends ≡ ends_after self.old.work (tree_of self.old.work) }
        ensures found { self.old.work.ends ≡ None → IsFoundBy (tree_of self.old.work) outcome.now (so_far self.old.work) (found self.old.work) (so_far self.new.work) }
        ensures config { self.new.work.config ≡ self.old.work.config }
        ensures call { self.new.work.call ≡ self.old.work.call }
        ensures core { self.new.work.core ≡ self.old.work.core }
        ensures mode { self.new.work.mode ≡ self.old.work.mode }
    {
        self.work.take(outcome);
        self.made += 1;
    }

    /// The reply, and what it does to the core; None exactly while moves are left.
    pub fn done(&self) -> Option<(Reply, After)>
        ensures over { tree_of self.now.work ≡ Over → (result ≡ self.now.work.ends) × (result ≡ None → ⊥) }
        ensures left { (tree_of self.now.work ≡ Over → ⊥) → result ≡ None }
    {
        match self.work.phase {
            Phase::Over => self.work.ends,
            _ => None,
        }
    }

    /// The call.
    pub fn call(&self) -> &Call
        ensures { result.now ≡ self.now.work.call }
    {
        &self.work.call
    }

    /// How many outcomes the call took: at most 1,200, and of a free at most 200 and the words of a region.
    pub fn made(&self) -> u32
        ensures made { result ≡ self.now.made }
        ensures most { result ≤ most_moves self.now.work.config self.now.work.call }
    {
        self.made
    }
}
