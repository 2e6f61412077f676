//! The one list of words in two pieces: DRAM's, which are handed in and out, and all others.

ghost use Rattle.std.specs.Prelude.{◌≡◌, ◌+◌, ◌<◌, ◌≤◌, length, slice_index, slice_set, IfOk};
ghost use Rattle.word_list.specs.Pieces.{joined, words_at, IsFirstTable};

use crate::layout::{dram_from, row_index};
use mon_types::{Config, ObjectId, Owner, Region, pack_own};
use std::alloc::{AllocError, Global};

/// The words before DRAM, and those of DRAM behind them.
#[derive(Debug, Drop)]
pub(crate) struct Pieces {
    pub table: Vec<u64>,
    pub dram: Vec<u64>,
}

/// The words before DRAM at the start: no ticket was drawn, no lock is held, every region is the OS's since ticket 0,
/// and every slot and cell is empty.
pub(crate) fn first_table(alloc: Global, config: &Config) -> Result<Vec<u64>, AllocError>
    ensures { IfOk result (λ table. IsFirstTable config.now table.items) }
{
    let owned = pack_own(&Region::Owned {
        owner: Owner::Os,
        since: 0,
    });
    let mut table = vec![in alloc; 0; dram_from(config)]?;
    for r in 0..config.regions() {
        table[row_index(config, ObjectId::Region(r))] = owned;
    }
    Ok(table)
}

impl Pieces {
    /// The word at a place of the list.
    pub fn word(&self, at: usize) -> u64
        requires { at < length (joined self.now) }
        ensures { result ≡ slice_index (joined self.now) at }
    {
        match at.checked_sub(self.table.len()) {
            None => self.table[at],
            Some(i) => self.dram[i],
        }
    }

    /// Puts a word at a place of the list.
    pub fn put(&mut self, at: usize, word: u64)
        requires { at < length (joined self.old) }
        ensures list { joined self.new ≡ slice_set (joined self.old) at word }
        ensures table { length self.new.table.items ≡ length self.old.table.items }
        ensures dram { length self.new.dram.items ≡ length self.old.dram.items }
    {
        match at.checked_sub(self.table.len()) {
            None => self.table[at] = word,
            Some(i) => self.dram[i] = word,
        }
    }

    /// N words from a place on, before DRAM.
    pub fn row<const N: usize>(&self, at: usize) -> [u64; N]
        requires { at + N ≤ length self.now.table.items }
        ensures { result ≡ words_at (joined self.now) at N }
    {
        let mut row = [0; N];
        row.copy_from_slice(&self.table[at..at + N]);
        row
    }
}
