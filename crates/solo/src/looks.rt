//! Looks at regions, and loads of words.

ghost use Rattle.std.specs.Prelude.{◌≡◌, ◌+◌, ◌<◌, ◌≤◌, length};
ghost use Rattle.mon_types.specs.Shape.{page_total};
ghost use Rattle.mon_types.specs.Owns.{owner_code, own_word};
ghost use Rattle.mon_types.specs.Budgets.{event_budget, answer_budget};
ghost use Rattle.dram_map.specs.Words.{word_at};
ghost use Rattle.solo.specs.Core.{given};
ghost use Rattle.solo.specs.Translation.{region_under, with_touch, looked, is_good_look};

use crate::one_core::OneCore;
use core_access::owned_since;
use hist::Event;
use mon_types::{Owner, Region};

/// The code of an owner, in the own-words of its regions.
fn owner_code(owner: Owner) -> u64
    ensures code { result ≡ owner_code owner }
    ensures small { result ≤ 256 }
{
    match owner {
        Owner::Os => 0,
        Owner::Enclave(e) => 1 + u64::from(e),
    }
}

/// The word that a look at a region gives: its own-word, whatever slot it names.
fn word_of_look(region: &Region) -> u64
    ensures { result ≡ own_word region.now }
{
    match *region {
        Region::Free => 0,
        Region::Owned { owner, since } => 1 + 4 * owner_code(owner) + 64 * u64::from(since),
        Region::Blocked { owner, since, .. } => 2 + 4 * owner_code(owner) + 64 * u64::from(since),
        Region::Offered { to, at } => 3 + 4 * (1 + u64::from(to)) + 64 * u64::from(at),
    }
}

impl OneCore {
    /// Takes in a good look at a period of a region. The first since the last clear is logged.
    fn touch(&mut self, region: u8, since: u32)
        requires { length self.old.log < event_budget }
        ensures core { self.new ≡ with_touch self.old region since }
        ensures events { length self.new.log ≤ length self.old.log + 1 }
    {
        if self.guest.touches.add(region, since) {
            self.log.add(Event::Touch { region, since });
        }
    }

    /// Looks at the region of a page, which is to be the permitted owner's; whether the look is good.
    pub fn look(&mut self, permitted: Owner, page: u16) -> bool
        requires page { page < page_total self.old.state.shape }
        requires answers { length self.old.answers < answer_budget }
        requires events { length self.old.log < event_budget }
        ensures core { self.new ≡ looked self.old permitted page }
        ensures good { result ≡ is_good_look self.old permitted page }
        ensures answers { length self.new.answers ≡ length self.old.answers + 1 }
        ensures events { length self.new.log ≤ length self.old.log + 1 }
    {
        let r = self.config.region_of(page);
        let region = self.monitor.regions()[usize::from(r)];
        self.answers.push(word_of_look(&region));
        match owned_since(permitted, &region) {
            None => false,
            Some(since) => {
                self.touch(r, since);
                true
            }
        }
    }

    /// Loads a word.
    pub fn read(&mut self, place: u64) -> u64
        requires { length self.old.answers < answer_budget }
        ensures core { self.new ≡ given self.old (word_at self.old.words place) }
        ensures word { result ≡ word_at self.old.words place }
    {
        let word = self.memory.word(place);
        self.answers.push(word);
        word
    }
}
