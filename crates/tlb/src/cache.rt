//! The cache and its sets.

ghost use Rattle.std.specs.Prelude.{◌≡◌, ◌≤◌, [], length};
ghost use Rattle.tlb.specs.Cache.{set_room, entry_of, page_for, page_of_one, HasOneEach, filled};
ghost use Rattle.tlb.specs.Sets.{by_set, set_filled, FitsInSets};

use crate::entry::Entry;
use arrayvec::ArrayVec;
use std::marker::Model;
use sv39_pte::Access;

/// How many entries a set has at most.
const SET_ROOM: usize = 4;

/// One set: its entries, the oldest first.
#[derive(Debug, Drop)]
struct Set {
    entries: ArrayVec<Entry, SET_ROOM>,
}

impl Model for Set {
    ghost use Rattle.std.specs.Prelude.{List};
    ghost use Rattle.tlb.specs.declared.entry.Entry.{Entry};

    ghost Value = { List Entry };

    ghost view = { λ s. s.entries.items };
}

impl Set {
    fn new() -> Set
        ensures { result ≡ [] }
    {
        Set {
            entries: ArrayVec::new(),
        }
    }

    /// The page of the entry that serves an access.
    fn look(&self, vpn: u64, access: Access) -> Option<u16>
        ensures { result ≡ page_for self.now vpn access }
    {
        for entry in self.entries.as_slice() {
            if entry.serves(vpn, access) {
                return Some(entry.page);
            }
        }
        None
    }

    /// Appends an entry, after the one of its virtual page is dropped, and the oldest if four are there.
    fn fill(&mut self, entry: Entry)
        ensures filled { self.new ≡ set_filled self.old entry }
        ensures few { length self.new ≤ set_room }
    {
        self.entries.retain(|other| other.vpn != entry.vpn);
        if self.entries.is_full() {
            self.entries.remove(0);
        }
        self.entries.push(entry);
    }
}

/// The translation cache of a core. Contracts see the list of its entries, set after set and in each set
/// the oldest first.
#[derive(Debug, Drop)]
pub struct Tlb {
    sets: [Set; 4],
}

impl Model for Tlb {
    ghost use Rattle.std.specs.Prelude.{List};
    ghost use Rattle.tlb.specs.declared.entry.Entry.{Entry};
    ghost use Rattle.tlb.specs.Sets.{joined, AreSets};

    ghost Value = { List Entry };

    ghost view = { λ t. joined t.sets };

    ghost invariant = { λ t. AreSets t.sets };
}

impl Tlb {
    /// A cache without entries.
    pub fn new() -> Tlb
        ensures { result ≡ [] }
    {
        Tlb {
            sets: [Set::new(), Set::new(), Set::new(), Set::new()],
        }
    }

    /// The page of DRAM that is found for an access to a virtual page; None where no entry of that page
    /// permits the access. A page has one entry at most.
    pub fn look(&self, vpn: u64, access: Access) -> Option<u16>
        ensures page { result ≡ page_for self.now vpn access }
        ensures one { result ≡ page_of_one self.now vpn access }
        ensures one_each { HasOneEach self.now }
        ensures fits { FitsInSets self.now }
    {
        self.sets[(vpn % 4) as usize].look(vpn, access)
    }

    /// Fills in the translation of a virtual page to a page of DRAM, which accesses may load from, store to
    /// and fetch from as is said.
    pub fn fill(&mut self, vpn: u64, page: u16, load: bool, store: bool, fetch: bool)
        ensures filled { self.new ≡ by_set (filled self.old (entry_of vpn page load store fetch)) }
        ensures one_each { HasOneEach self.new }
        ensures fits { FitsInSets self.new }
    {
        let entry = Entry {
            vpn,
            page,
            load,
            store,
            fetch,
        };
        self.sets[(vpn % 4) as usize].fill(entry);
    }

    /// Drops all entries.
    pub fn clear(&mut self)
        ensures { self.new ≡ [] }
    {
        *self = Tlb::new();
    }
}
