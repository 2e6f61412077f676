//! Where the words stand in the one list: the ticket counter, the lock words, the rows, DRAM.

ghost use Rattle.std.specs.Prelude.{◌≡◌, ◌<◌};
ghost use Rattle.std.specs.Option.{option_map};
ghost use Rattle.protocol.specs.Layout.{object_index, enclaves_from, threads_from, regions_from, cells_from, dram_from, row_index, place_index};
ghost use Rattle.protocol.specs.Moves.{action_place, place_of};

use mon_types::{Config, ObjectId, SLOTS, THREADS};
use protocol::{Action, Move};

/// How many words the row of an enclave slot has.
pub(crate) const ENCLAVE_WORDS: usize = 29;

/// How many words the row of a thread slot has.
pub(crate) const THREAD_WORDS: usize = 37;

/// How many words the row of a region has.
const REGION_WORDS: usize = 2;

/// The place of an object among all, in the order in which they are tried.
#[tactic(auto, unfolding(protocol::specs::Layout::object_index))]
fn object_index(config: &Config, object: ObjectId) -> usize
    ensures index { result ≡ object_index config.now object }
    ensures small { result < 1024 }
{
    match object {
        ObjectId::Enclave(e) => usize::from(e),
        ObjectId::Thread(t) => SLOTS + usize::from(t),
        ObjectId::Region(r) => SLOTS + THREADS + usize::from(r),
        ObjectId::Cell(c) => SLOTS + THREADS + usize::from(config.regions()) + usize::from(c),
    }
}

/// Where the rows begin, those of enclave slots first.
fn enclaves_from(config: &Config) -> usize
    ensures from { result ≡ enclaves_from config.now }
    ensures small { result < 1024 }
{
    let objects = SLOTS + THREADS + usize::from(config.regions()) + usize::from(config.cores());
    1 + objects
}

/// Where those of thread slots begin.
fn threads_from(config: &Config) -> usize
    ensures from { result ≡ threads_from config.now }
    ensures small { result < 2048 }
{
    enclaves_from(config) + ENCLAVE_WORDS * SLOTS
}

/// Where those of regions begin.
fn regions_from(config: &Config) -> usize
    ensures from { result ≡ regions_from config.now }
    ensures small { result < 4096 }
{
    threads_from(config) + THREAD_WORDS * THREADS
}

/// Where those of cells begin.
fn cells_from(config: &Config) -> usize
    ensures from { result ≡ cells_from config.now }
    ensures small { result < 8192 }
{
    regions_from(config) + REGION_WORDS * usize::from(config.regions())
}

/// Where DRAM begins.
pub(crate) fn dram_from(config: &Config) -> usize
    ensures from { result ≡ dram_from config.now }
    ensures small { result < 16384 }
{
    cells_from(config) + usize::from(config.cores())
}

/// Where the row of an object begins.
#[tactic(auto, unfolding(protocol::specs::Layout::row_index))]
pub(crate) fn row_index(config: &Config, object: ObjectId) -> usize
    ensures index { result ≡ row_index config.now object }
    ensures small { result < 32768 }
{
    match object {
        ObjectId::Enclave(e) => enclaves_from(config) + ENCLAVE_WORDS * usize::from(e),
        ObjectId::Thread(t) => threads_from(config) + THREAD_WORDS * usize::from(t),
        ObjectId::Region(r) => regions_from(config) + REGION_WORDS * usize::from(r),
        ObjectId::Cell(c) => cells_from(config) + usize::from(c),
    }
}

/// Where the word stands on which a move of a call acts.
#[tactic(auto, unfolding(protocol::specs::Layout::place_index, protocol::specs::Moves::action_place))]
fn action_index(config: &Config, action: &Action) -> usize
    ensures { result ≡ place_index config.now (action_place action.now) }
{
    match *action {
        Action::TryLock { object } | Action::Unlock { object } => 1 + object_index(config, object),
        Action::Read { object, at } | Action::Write { object, at, .. } => {
            row_index(config, object) + usize::from(at)
        }
        Action::Draw { .. } => 0,
        Action::Load { word } | Action::Store { word, .. } => dram_from(config) + word as usize,
    }
}

/// Where the word stands on which a move acts; None for a stop, which acts on none.
#[tactic(auto, unfolding(protocol::specs::Layout::place_index, protocol::specs::Moves::place_of))]
pub(crate) fn move_index(config: &Config, action: &Move) -> Option<usize>
    ensures { result ≡ option_map (place_index config.now) (place_of action.now) }
{
    match *action {
        Move::InCall(action) => Some(action_index(config, &action)),
        Move::Look { region, .. } => Some(row_index(config, ObjectId::Region(region))),
        Move::Load { word } | Move::Store { word, .. } | Move::Swap { word, .. } => {
            Some(dram_from(config) + word as usize)
        }
        Move::Stop { .. } => None,
    }
}
