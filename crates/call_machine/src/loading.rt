//! The calls that load an enclave: the ptes on an address's path, the page that is copied, and the pte that is put in.

ghost use Rattle.std.specs.Prelude.{◌≡◌, ◌+◌, ◌-◌, ◌≤◌, ◌<◌, ◌++◌, true, None, Some, length};
ghost use Rattle.mon_types.specs.Sizes.{page_words};
ghost use Rattle.sv39_pte.specs.Tables.{last_place, leads_to_table, page_led_to};
ghost use Rattle.mon_enclaves.specs.LoadReply.{is_load, va_of};
ghost use Rattle.mon_model.specs.InRange.{IsInRange};
ghost use Rattle.loaded_pages.specs.Content.{loaded_pte};
ghost use Rattle.protocol.specs.CallTree.{loaded, put_pte, walk, go_on};
ghost use Rattle.call_machine.specs.Meaning.{so_far, issuer, found, known, ptes_in, draws, copied};
ghost use Rattle.call_machine.specs.Count.{most_drawn, most_copied};
ghost use Rattle.call_machine.specs.Stands.{IsLocked, IsWalking, IsDecided, IsCopying, IsAt, HasTaken};

use crate::outcomes::word_of;
use crate::phase::Phase;
use crate::rows::array_of;
use crate::work::Work;
use hist::PageInput;
use mon_calls::decide;
use mon_enclaves::address_of;
use mon_measure::page_digest;
use mon_types::{Call, Config, PAGE_WORDS};
use protocol::Outcome;
use sv39_pte::{leaf_pte, pointer_pte, pte_place, table_led_to};

/// The pte that leads to what a call loads; 0 for a call that loads nothing.
#[tactic(auto, using(mon_types::specs::LimitLaws::few_pages))]
pub fn pte_of(config: &Config, call: &Call) -> u64
    requires { IsInRange config.now call.now }
    ensures { result ≡ loaded_pte call.now }
{
    let _regions = config.regions();
    match *call {
        Call::LoadTable { page, .. } => pointer_pte(page as u16),
        Call::LoadPage { page, perms, .. } | Call::Reserve { page, perms, .. } => {
            leaf_pte(page as u16, perms)
        }
        _ => 0,
    }
}

impl Work {
    /// A pte was loaded.
    pub(crate) fn pte_loaded(&mut self, page: u16, level: u8, left: u8, outcome: &Outcome)
        requires { IsWalking self.old level left }
        ensures at { HasTaken self.old self.new (Phase.Walks page level left) outcome.now }
        ensures found { so_far self.new ≡ found self.old }
    {
        let pte = word_of(outcome);
        self.places
            .push(pte_place(page, level, address_of(&self.call)) as u32);
        self.ptes.push(pte);
        if left == 1 {
            self.decide_by_ptes();
        } else {
            self.walk_on(level - 1, left - 1, pte);
        }
    }

    /// Goes on to the table to which a pte leads, which has this level; where it leads to none, the ptes decide.
    fn walk_on(&mut self, level: u8, left: u8, pte: u64)
        requires { IsWalking self.old level left }
        ensures at { IsAt self.old self.new self.old.ends (go_on (leads_to_table self.old.config pte) (walk self.old.config (va_of self.old.call) level left (page_led_to pte) (λ rest. loaded (issuer self.old) self.old.call (known self.old) (found self.old) (ptes_in self.old ++ rest))) (loaded (issuer self.old) self.old.call (known self.old) (found self.old) (ptes_in self.old))) (left + most_copied self.old.call + 1 + most_drawn self.old.config self.old.call) }
        ensures found { so_far self.new ≡ found self.old }
    {
        match table_led_to(&self.config, pte) {
            Some(page) => self.phase = Phase::Walks { page, level, left },
            None => self.decide_by_ptes(),
        }
    }

    /// The ptes decide the reply, or those that there are.
    pub(crate) fn decide_by_ptes(&mut self)
        requires locked { IsLocked self.old }
        requires load { is_load self.old.call ≡ true }
        requires few { length self.old.ptes.items ≤ 3 }
        requires same { length self.old.places.items ≡ length self.old.ptes.items }
        ensures at { IsAt self.old self.new self.old.ends (loaded (issuer self.old) self.old.call (known self.old) (found self.old) (ptes_in self.old)) (most_copied self.old.call + 1 + most_drawn self.old.config self.old.call) }
        ensures found { so_far self.new ≡ found self.old }
    {
        self.reply = decide(
            &self.config,
            self.core,
            self.mode,
            &self.call,
            &self.held,
            &self.ptes,
        );
        if !self.reply.is_ok() {
            self.phase = Phase::Refuses;
        } else if let Call::LoadPage { .. } = self.call {
            self.phase = Phase::Loads { at: 0 };
        } else {
            self.put();
        }
    }

    /// A word of the page was loaded.
    pub(crate) fn word_loaded(&mut self, at: u16, outcome: &Outcome)
        requires copying { IsCopying self.old at }
        requires at { at < page_words }
        ensures at { HasTaken self.old self.new (Phase.Loads at) outcome.now }
        ensures found { so_far self.new ≡ found self.old }
    {
        let word = word_of(outcome);
        self.page.push(word);
        self.phase = Phase::Stores { at, word };
    }

    /// It was stored in the other page.
    pub(crate) fn word_stored(&mut self, at: u16, word: u64, outcome: &Outcome)
        requires copying { IsCopying self.old (at + 1) }
        requires at { at < page_words }
        ensures at { HasTaken self.old self.new (Phase.Stores at word) outcome.now }
        ensures found { so_far self.new ≡ found self.old }
    {
        if usize::from(at) + 1 < PAGE_WORDS {
            self.phase = Phase::Loads { at: at + 1 };
        } else {
            self.page_copied();
        }
    }

    /// The whole page was copied.
    fn page_copied(&mut self)
        requires { IsCopying self.old page_words }
        ensures at { IsAt self.old self.new self.old.ends (copied self.old self.old.page.items) (1 + most_drawn self.old.config self.old.call) }
        ensures found { so_far self.new ≡ found self.old }
    {
        self.input = Some(PageInput {
            digest: page_digest(&array_of(&self.page)),
            at: self.answers + self.ptes.len() as u32,
        });
        self.put();
    }

    /// The pte that leads to what is loaded is stored, if it has a place; and then the Draw.
    fn put(&mut self)
        requires { IsDecided self.old }
        ensures at { IsAt self.old self.new self.old.ends (put_pte (last_place self.old.places.items) self.old.call (draws self.old self.old.input self.old.stood.items)) (1 + most_drawn self.old.config self.old.call) }
        ensures found { so_far self.new ≡ found self.old }
    {
        match self.places.last() {
            Some(&place) => self.phase = Phase::Puts { place },
            None => self.phase = Phase::Draws,
        }
    }

    /// It was stored.
    pub(crate) fn pte_put(&mut self, place: u32, outcome: &Outcome)
        requires { IsDecided self.old }
        ensures at { HasTaken self.old self.new (Phase.Puts place) outcome.now }
        ensures found { so_far self.new ≡ found self.old }
    {
        self.phase = Phase::Draws;
    }
}
