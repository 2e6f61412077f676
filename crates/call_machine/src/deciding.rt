//! The reply is decided.

ghost use Rattle.std.specs.Prelude.{◌≡◌, ◌+◌, ◌-◌, ◌≤◌, ◌<◌, true, [], ℕ, List, Some, None, drop, ◌++◌, length, slice_index_or};
ghost use Rattle.mon_types.specs.declared.object.ObjectId.{ObjectId};
ghost use Rattle.mon_types.specs.declared.region.Region.TheVariants as regions;
ghost use Rattle.mon_model.specs.State.{enclave_at};
ghost use Rattle.mon_enclaves.specs.LoadReply.{is_load, slot_of, va_of, path_length};
ghost use Rattle.protocol.specs.CallTree.{Tree, decided, loaded, walk_below, put_pte};
ghost use Rattle.call_machine.specs.Meaning.{so_far, issuer, found, known, ptes_in, objects_in, draws};
ghost use Rattle.call_machine.specs.Rest.{early_own, early_rest};
ghost use Rattle.call_machine.specs.Count.{most_decided, most_early, most_copied, most_drawn};
ghost use Rattle.call_machine.specs.Stands.{IsLocked, IsWalking, IsDecided, IsAt, HasTaken, phase_stands};

use crate::early::{early_own, next_early};
use crate::phase::Phase;
use crate::places::{put_word, row_start};
use crate::work::Work;
use mon_calls::decide;
use mon_enclaves::{is_load, path_length};
use mon_types::ObjectId;
use protocol::Outcome;

impl Work {
    /// All objects are held: the reply is decided by their records, or refused, or goes by ptes too.
    pub(crate) fn decide(&mut self)
        requires locked { IsLocked self.old }
        requires ptes { self.old.ptes.items ≡ [] }
        requires places { self.old.places.items ≡ [] }
        requires page { self.old.page.items ≡ [] }
        ensures at { IsAt self.old self.new self.old.ends (decided self.old.config (issuer self.old) self.old.call (found self.old)) (most_decided self.old.config self.old.call) }
        ensures found { so_far self.new ≡ found self.old }
    {
        self.reply = decide(
            &self.config,
            self.core,
            self.mode,
            &self.call,
            &self.held,
            &[],
        );
        if !self.reply.is_ok() {
            self.phase = Phase::Refuses;
        } else if is_load(&self.call) {
            self.walk();
        } else {
            self.withdraw(0);
        }
    }

    /// The rows do not refuse a call that loads: it loads the ptes on its address's path.
    fn walk(&mut self)
        requires locked { IsLocked self.old }
        requires load { is_load self.old.call ≡ true }
        requires ptes { self.old.ptes.items ≡ [] }
        requires places { self.old.places.items ≡ [] }
        requires page { self.old.page.items ≡ [] }
        ensures at { IsAt self.old self.new self.old.ends (walk_below self.old.config (va_of self.old.call) (path_length self.old.call) (enclave_at (known self.old) (slot_of self.old.call)).root (loaded (issuer self.old) self.old.call (known self.old) (found self.old))) (most_decided self.old.config self.old.call) }
        ensures found { so_far self.new ≡ found self.old }
    {
        let left = path_length(&self.call);
        if left == 0 {
            self.decide_by_ptes();
        } else {
            self.walk_root(left);
        }
    }

    /// It loads so many ptes at most, from the root of its enclave down.
    fn walk_root(&mut self, left: u8)
        requires { IsWalking self.old 2 left }
        ensures at { IsAt self.old self.new self.old.ends (walk_below self.old.config (va_of self.old.call) left (enclave_at (known self.old) (slot_of self.old.call)).root (λ rest. loaded (issuer self.old) self.old.call (known self.old) (found self.old) (ptes_in self.old ++ rest))) (left + most_copied self.old.call + 1 + most_drawn self.old.config self.old.call) }
        ensures found { so_far self.new ≡ found self.old }
    {
        match self.held.first_enclave().root {
            Some(page) => {
                self.phase = Phase::Walks {
                    page,
                    level: 2,
                    left,
                };
            }
            None => self.decide_by_ptes(),
        }
    }

    /// The place of the first region from one on that is withdrawn, among those that are held, or the end.
    fn early_from(&self, from: usize) -> usize
        requires decided { IsDecided self.now }
        requires start { from ≤ length self.now.held.regions.items }
        ensures on { from ≤ result }
        ensures end { result ≤ length self.now.held.regions.items }
        ensures found { result < length self.now.held.regions.items → early_own self.now.call (slice_index_or self.now.held.regions.items result (0, regions.Free)).1 ≡ None → ⊥ }
        ensures skips { (os : List ObjectId) (stood : List ℕ) (next : List ℕ → Tree) → early_rest self.now.call os (drop from self.now.held.regions.items) stood next ≡ early_rest self.now.call os (drop result self.now.held.regions.items) stood next }
    {
        next_early(&self.call, &self.held.regions, from)
    }

    /// The early writes of an Ok call, from this place on among the regions that are held, and then its Draw.
    pub(crate) fn withdraw(&mut self, from: usize)
        requires decided { IsDecided self.old }
        requires input { self.old.input ≡ None }
        requires from { from ≤ length self.old.held.regions.items }
        ensures at { IsAt self.old self.new self.old.ends (early_rest self.old.call (objects_in self.old) (drop from self.old.held.regions.items) self.old.stood.items (draws self.old None)) ((most_early self.old.call - from) + most_drawn self.old.config self.old.call) }
        ensures found { so_far self.new ≡ found self.old }
    {
        let at = self.early_from(from);
        if at < self.held.regions.len() {
            self.phase = Phase::Early { at: at as u8 };
        } else {
            self.phase = Phase::Draws;
        }
    }

    /// The region at this place, by its number, and the own-word that withdraws it.
    pub(crate) fn own_word(&self, at: u8) -> (u8, u64)
        requires stands { phase_stands self.now (Phase.Early at) }
        ensures region { result.0 ≡ (slice_index_or self.now.held.regions.items at (0, regions.Free)).0 }
        ensures word { early_own self.now.call (slice_index_or self.now.held.regions.items at (0, regions.Free)).1 ≡ Some result.1 }
    {
        let (r, region) = self.held.regions[usize::from(at)];
        match early_own(&self.call, &region) {
            Some(word) => (r, word),
            None => unreachable!(),
        }
    }

    /// The own-word of the region at this place was written.
    pub(crate) fn own_written(&mut self, at: u8, outcome: &Outcome)
        requires stands { phase_stands self.old (Phase.Early at) }
        ensures { HasTaken self.old self.new (Phase.Early at) outcome.now }
    {
        let (r, word) = self.own_word(at);
        let place = row_start(&self.locks, ObjectId::Region(r));
        put_word(&mut self.stood, place, word);
        self.withdraw(usize::from(at) + 1);
    }
}
