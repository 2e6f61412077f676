//! The Draw, and what follows it.

ghost use Rattle.std.specs.Prelude.{◌≡◌, ◌+◌, ◌-◌, ◌≤◌, ◌<◌, ◌==◌, ℕ, List, None, Some, false, length, take, slice_index};
ghost use Rattle.core_context.specs.declared.after.After.TheVariants as afters;
ghost use Rattle.dram_map.specs.Addresses.{word_total};
ghost use Rattle.mon_model.specs.Tries.{freed_by};
ghost use Rattle.hist.specs.History.{digest_of};
ghost use Rattle.mon_types.specs.Replies.{is_done};
ghost use Rattle.mon_types.specs.declared.object.ObjectId.{ObjectId};
ghost use Rattle.protocol.specs.CallTree.{Tree, zeros};
ghost use Rattle.call_machine.specs.Meaning.{objects_in, phase_tree, IsOutcome};
ghost use Rattle.call_machine.specs.Rest.{places, writes_from, region_words_from, unlocks_of};
ghost use Rattle.call_machine.specs.Stands.{IsBased, IsDecided, IsDrawn, IsAt, HasTaken, phase_stands};

use crate::outcomes::ticket_of;
use crate::phase::Phase;
use crate::places::first_change;
use crate::rows::put_rows;
use crate::work::Work;
use crate::zeros::next_word;
use core_context::After;
use hist::PageInput;
use mon_calls::{apply, core_change};
use mon_types::Call;
use protocol::Outcome;

/// The digest that a call other than load_page is given.
const NO_DIGEST: [u8; 32] = [0; 32];

/// The digest of the page that was read, zeros where none was.
fn digest_in(input: &Option<PageInput>) -> [u8; 32]
    ensures { result ≡ digest_of input.now }
{
    match input {
        None => NO_DIGEST,
        Some(page) => page.digest,
    }
}

/// The region that the call frees; 0 where it frees none.
fn freed_by(call: &Call) -> u64
    ensures { result ≡ freed_by call.now }
{
    match *call {
        Call::Free { r } => r,
        _ => 0,
    }
}

impl Work {
    /// A refusal has its ticket.
    pub(crate) fn refused(&mut self, outcome: &Outcome)
        requires based { IsBased self.old }
        requires refused { is_done self.old.reply ≡ false }
        ensures { HasTaken self.old self.new Phase.Refuses outcome.now }
    {
        self.ends = Some((self.reply, After::Nothing));
        let left = self.locks.len() as u8;
        self.unlock(left);
    }

    /// An Ok call has its ticket.
    pub(crate) fn drawn(&mut self, outcome: &Outcome)
        requires decided { IsDecided self.old }
        requires outcome { IsOutcome (phase_tree self.old Phase.Draws) outcome.now }
        ensures { HasTaken self.old self.new Phase.Draws outcome.now }
    {
        let ticket = ticket_of(outcome);
        self.ends = Some((self.reply, core_change(&self.call, &self.held)));
        let digest = digest_in(&self.input);
        apply(
            &self.config,
            self.core,
            self.mode,
            &self.call,
            &digest,
            ticket,
            &mut self.held,
        );
        put_rows(&self.held, &mut self.wanted);
        match self.call {
            Call::Free { .. } => self.zero(0),
            _ => self.write(0),
        }
    }

    /// Zeros in the words of the region that the call has freed, from this one on, and then the late writes.
    fn zero(&mut self, from: u32)
        requires based { IsBased self.old }
        requires drawn { IsDrawn self.old }
        requires from { from ≤ word_total self.old.config }
        ensures { IsAt self.old self.new self.old.ends (zeros (region_words_from self.old.config (freed_by self.old.call) from) (writes_from (places (objects_in self.old)) self.old.stood.items self.old.wanted.items 0 (unlocks_of (objects_in self.old)))) (length (region_words_from self.old.config (freed_by self.old.call) from) + (length self.old.stood.items + length self.old.locks.items)) }
    {
        match next_word(&self.config, freed_by(&self.call), from) {
            Some(word) => self.phase = Phase::Zeros { word },
            None => self.write(0),
        }
    }

    /// 0 was stored in this word.
    pub(crate) fn zeroed(&mut self, word: u32, outcome: &Outcome)
        requires based { IsBased self.old }
        requires stands { phase_stands self.old (Phase.Zeros word) }
        ensures { HasTaken self.old self.new (Phase.Zeros word) outcome.now }
    {
        self.zero(word + 1);
    }

    /// The first place from one on where the word of a row is to differ, or the end.
    fn change_from(&self, from: usize) -> usize
        requires start { from ≤ length self.now.stood.items }
        requires same { length self.now.wanted.items ≡ length self.now.stood.items }
        ensures on { from ≤ result }
        ensures end { result ≤ length self.now.stood.items }
        ensures differs { result < length self.now.stood.items → (slice_index self.now.stood.items result == slice_index self.now.wanted.items result) ≡ false }
        ensures skips { (ps : List (ObjectId × ℕ)) (next : Tree) → length ps ≡ length self.now.stood.items → writes_from ps self.now.stood.items self.now.wanted.items from next ≡ writes_from ps self.now.stood.items self.now.wanted.items result next }
    {
        first_change(&self.stood, &self.wanted, from)
    }

    /// The late writes from this place of all rows on, and then the unlocks.
    fn write(&mut self, from: usize)
        requires based { IsBased self.old }
        requires drawn { IsDrawn self.old }
        requires from { from ≤ length self.old.stood.items }
        ensures { IsAt self.old self.new self.old.ends (writes_from (places (objects_in self.old)) self.old.stood.items self.old.wanted.items from (unlocks_of (objects_in self.old))) ((length self.old.stood.items - from) + length self.old.locks.items) }
    {
        let at = self.change_from(from);
        if at < self.stood.len() {
            self.phase = Phase::Late { at: at as u8 };
        } else {
            let left = self.locks.len() as u8;
            self.unlock(left);
        }
    }

    /// The word at this place was written.
    pub(crate) fn written(&mut self, at: u8, outcome: &Outcome)
        requires based { IsBased self.old }
        requires stands { phase_stands self.old (Phase.Late at) }
        ensures { HasTaken self.old self.new (Phase.Late at) outcome.now }
    {
        self.write(usize::from(at) + 1);
    }

    /// So many locks are to be given back.
    fn unlock(&mut self, left: u8)
        requires based { IsBased self.old }
        requires few { left ≤ length self.old.locks.items }
        requires ends { self.old.ends ≡ None → ⊥ }
        ensures { IsAt self.old self.new self.old.ends (unlocks_of (take left (objects_in self.old))) left }
    {
        if left == 0 {
            self.phase = Phase::Over;
        } else {
            self.phase = Phase::Unlocks { left };
        }
    }

    /// The last of so many locks was given back.
    pub(crate) fn unlocked(&mut self, left: u8, outcome: &Outcome)
        requires based { IsBased self.old }
        requires stands { phase_stands self.old (Phase.Unlocks left) }
        ensures { HasTaken self.old self.new (Phase.Unlocks left) outcome.now }
    {
        self.unlock(left - 1);
    }
}
