//! The next move of a call, and what its outcome leads to.

ghost use Rattle.std.specs.Prelude.{◌≡◌, ◌+◌, ◌-◌, ◌≤◌, ◌<◌, ◌∷◌, [], None};
ghost use Rattle.mon_model.specs.InRange.{IsInRange};
ghost use Rattle.mon_enclaves.specs.LoadReply.{source_of};
ghost use Rattle.protocol.specs.CallTree.{Over};
ghost use Rattle.call_machine.specs.Meaning.{PhaseFinds, so_far, Heads, IsOutcome, phase_tree, tree_of, after, ends_after, draft_with, target_of};
ghost use Rattle.call_machine.specs.Count.{left};
ghost use Rattle.call_machine.specs.Stands.{IsBased, IsAt, phase_stands};

use crate::loading::pte_of;
use crate::phase::Phase;
use crate::places::place_of;
use crate::work::Work;
use dram_map::first_word;
use mon_enclaves::address_of;
use mon_types::{Call, Config, ObjectId};
use protocol::{Action, Draft, Outcome};
use sv39_pte::pte_place;

/// The page that a load_page copies, and the page that it fills; for any other call 0 and 0.
#[tactic(auto, using(mon_types::specs::LimitLaws::few_pages))]
fn pages_of(config: &Config, call: &Call) -> (u16, u16)
    requires { IsInRange config.now call.now }
    ensures source { result.0 ≡ source_of call.now }
    ensures target { result.1 ≡ target_of call.now }
{
    let _regions = config.regions();
    match *call {
        Call::LoadPage { src, page, .. } => (src as u16, page as u16),
        _ => (0, 0),
    }
}

impl Work {
    /// What its Draw fixes.
    fn draft(&self) -> Draft
        ensures { result ≡ draft_with self.now self.now.input }
    {
        Draft {
            serial: self.serial,
            call: self.call,
            page: self.input,
            reply: self.reply,
            tried: self.tried,
        }
    }

    /// The early write of the region at this place.
    fn withdraws(&self, at: u8) -> Action
        requires { phase_stands self.now (Phase.Early at) }
        ensures { Heads (phase_tree self.now (Phase.Early at)) result }
    {
        let (r, value) = self.own_word(at);
        Action::Write {
            object: ObjectId::Region(r),
            at: 0,
            value,
        }
    }

    /// The late write at this place of all rows.
    fn writes(&self, at: u8) -> Action
        requires { phase_stands self.now (Phase.Late at) }
        ensures { Heads (phase_tree self.now (Phase.Late at)) result }
    {
        let place = usize::from(at);
        let (object, at) = place_of(&self.locks, place);
        Action::Write {
            object,
            at,
            value: self.wanted[place],
        }
    }

    /// A load of a pte.
    fn walks(&self, page: u16, level: u8, left: u8) -> Action
        requires { phase_stands self.now (Phase.Walks page level left) }
        ensures { Heads (phase_tree self.now (Phase.Walks page level left)) result }
    {
        Action::Load {
            word: pte_place(page, level, address_of(&self.call)) as u32,
        }
    }

    /// A load of a word of the page that is copied.
    fn loads(&self, at: u16) -> Action
        requires { phase_stands self.now (Phase.Loads at) }
        ensures { Heads (phase_tree self.now (Phase.Loads at)) result }
    {
        let (source, _) = pages_of(&self.config, &self.call);
        Action::Load {
            word: first_word(source) as u32 + u32::from(at),
        }
    }

    /// A store of it in the other page.
    fn stores(&self, at: u16, value: u64) -> Action
        requires { phase_stands self.now (Phase.Stores at value) }
        ensures { Heads (phase_tree self.now (Phase.Stores at value)) result }
    {
        let (_, target) = pages_of(&self.config, &self.call);
        Action::Store {
            word: first_word(target) as u32 + u32::from(at),
            value,
        }
    }

    /// The next move.
    pub(crate) fn next(&self) -> Action
        requires stands { phase_stands self.now self.now.phase }
        requires goes_on { tree_of self.now ≡ Over → ⊥ }
        ensures { Heads (tree_of self.now) result }
    {
        match self.phase {
            Phase::Tries { object } => Action::TryLock { object },
            Phase::Reads { object, at } => Action::Read { object, at },
            Phase::Walks { page, level, left } => self.walks(page, level, left),
            Phase::Loads { at } => self.loads(at),
            Phase::Stores { at, word } => self.stores(at, word),
            Phase::Puts { place } => Action::Store {
                word: place,
                value: pte_of(&self.config, &self.call),
            },
            Phase::Early { at } => self.withdraws(at),
            Phase::Refuses => Action::Draw {
                draft: self.draft(),
            },
            Phase::Draws => Action::Draw {
                draft: self.draft(),
            },
            Phase::Zeros { word } => Action::Store { word, value: 0 },
            Phase::Late { at } => self.writes(at),
            Phase::Unlocks { left } => Action::Unlock {
                object: self.locks[usize::from(left) - 1].object,
            },
            Phase::Over => unreachable!(),
        }
    }

    /// Goes on by the outcome of its next move.
    pub(crate) fn take(&mut self, outcome: &Outcome)
        requires based { IsBased self.old }
        requires stands { phase_stands self.old self.old.phase }
        requires outcome { IsOutcome (tree_of self.old) outcome.now }
        ensures at { IsAt self.old self.new (ends_after self.old (tree_of self.old)) (after (tree_of self.old) outcome.now) (left self.old - 1) }
        ensures found { self.old.ends ≡ None → PhaseFinds self.old self.old.phase outcome.now (so_far self.new) }
    {
        match self.phase {
            Phase::Tries { object } => self.lock_tried(object, outcome),
            Phase::Reads { object, at } => self.word_read(object, at, outcome),
            Phase::Walks { page, level, left } => self.pte_loaded(page, level, left, outcome),
            Phase::Loads { at } => self.word_loaded(at, outcome),
            Phase::Stores { at, word } => self.word_stored(at, word, outcome),
            Phase::Puts { place } => self.pte_put(place, outcome),
            Phase::Early { at } => self.own_written(at, outcome),
            Phase::Refuses => self.refused(outcome),
            Phase::Draws => self.drawn(outcome),
            Phase::Zeros { word } => self.zeroed(word, outcome),
            Phase::Late { at } => self.written(at, outcome),
            Phase::Unlocks { left } => self.unlocked(left, outcome),
            Phase::Over => unreachable!(),
        }
    }
}
