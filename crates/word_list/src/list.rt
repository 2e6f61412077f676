//! All words of a machine, and one move at a time on them.

ghost use Rattle.std.specs.Prelude.{◌≡◌, ◌<◌, length, IfOk};
ghost use Rattle.mon_types.specs.Locks.{lock_word};
ghost use Rattle.dram_map.specs.Addresses.{word_total};
ghost use Rattle.protocol.specs.Places.{Memory, first_memory};
ghost use Rattle.protocol.specs.Moves.{place_of, word_found, outcome_of, memory_after_move};
ghost use Rattle.word_list.specs.Listed.{StandsFor, CanBeMade, tickets_in};
ghost use Rattle.word_list.specs.Tables.{AreTablesOf};

use crate::layout::move_index;
use crate::moves::{leaves, outcome_of};
use crate::pieces::{Pieces, first_table};
use crate::records::{cells_in, enclaves_in, regions_in, threads_in};
use crate::room::Room;
use crate::tables::Tables;
use mon_types::{Config, Items, pack_lock};
use protocol::{Move, Outcome};
use std::alloc::{AllocError, Global};
use std::marker::Model;

/// All words that the cores of a machine share: the ticket counter, a lock word and a row of words for each object, and
/// DRAM. Contracts see the machine's shape and the words in one list.
#[derive(Debug, Drop)]
pub struct WordList {
    config: Config,
    words: Pieces,
    room: Room,
}

impl Model for WordList {
    ghost use Rattle.word_list.specs.Listed.{Listed};
    ghost use Rattle.word_list.specs.Pieces.{joined};
    ghost use Rattle.word_list.specs.Kept.{IsKept};

    ghost Value = { Listed };

    ghost view = { λ l. record { shape = l.config; words = joined l.words } };

    ghost invariant = { λ l. IsKept l.config l.words l.room };
}

impl WordList {
    /// The words of a machine at its start, where DRAM has these. It takes all memory that will be needed.
    pub fn new(alloc: Global, config: &Config, dram: Vec<u64>) -> Result<WordList, AllocError>
        requires { length dram.items ≡ word_total config.now }
        ensures machine { IfOk result (λ l. l.shape ≡ config.now) }
        ensures start { IfOk result (λ l. StandsFor l (first_memory config.now dram.items)) }
    {
        let table = first_table(alloc, config)?;
        let room = Room::new(alloc, config)?;
        Ok(WordList {
            config: *config,
            words: Pieces { table, dram },
            room,
        })
    }

    /// How many tickets were drawn.
    pub fn tickets(&self) -> u64
        ensures { result ≡ tickets_in self.now }
    {
        self.words.word(0)
    }

    /// Makes a move of a core, below 16, whose call under way, or else its next, has this serial. What the move answers
    /// and leaves is what it does to any memory for which the list stands.
    pub fn perform(&mut self, core: u8, serial: u32, action: &Move) -> Outcome
        requires core { core < 16 }
        requires possible { CanBeMade self.old action.now }
        ensures outcome { (memory : Memory) → StandsFor self.old memory
            → result ≡ outcome_of action.now (word_found memory (place_of action.now)) }
        ensures words { (memory : Memory) → StandsFor self.old memory
            → StandsFor self.new (memory_after_move (lock_word core serial) memory action.now) }
        ensures machine { self.new.shape ≡ self.old.shape }
    {
        match move_index(&self.config, action) {
            None => Outcome::Done,
            Some(at) => {
                let found = self.words.word(at);
                self.words
                    .put(at, leaves(pack_lock(core, serial), action, found));
                outcome_of(action, found)
            }
        }
    }

    /// The records that the rows hold, and the words of DRAM. Takes no memory.
    pub fn into_tables(self) -> Tables
        ensures { (memory : Memory) → StandsFor self memory → AreTablesOf self.shape memory result }
    {
        let WordList {
            config,
            words,
            room,
        } = self;
        Tables {
            regions: regions_in(&config, &words, room.regions),
            enclaves: enclaves_in(&config, &words, room.enclaves),
            threads: threads_in(&config, &words, room.threads),
            flushed: cells_in(&config, &words, room.flushed),
            words: Items::from_vec(words.dram),
        }
    }
}
