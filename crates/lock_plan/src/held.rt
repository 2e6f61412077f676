//! What a call holds so far.

ghost use Rattle.std.specs.Prelude.{◌≡◌};
ghost use Rattle.lock_plan.specs.Plan.{held_count, first_region, first_enclave, second_enclave, first_thread};
ghost use Rattle.lock_plan.specs.Records.{nothing_held};

use arrayvec::ArrayVec;
use mon_types::{Enclave, MOST_CORES, MOST_REGIONS, Region, Thread};

/// The records of the objects that a call holds so far, each with the object's number, kind by kind, in
/// the order in which they were tried. That of a cell is the ticket of its core's last flush.
#[derive(Debug, Drop)]
pub struct Held {
    pub enclaves: ArrayVec<(u8, Enclave), 2>,
    pub threads: ArrayVec<(u8, Thread), 1>,
    pub regions: ArrayVec<(u8, Region), MOST_REGIONS>,
    pub cells: ArrayVec<(u8, u32), MOST_CORES>,
}

impl Held {
    /// Nothing is held.
    pub fn new() -> Held
        ensures { result ≡ nothing_held }
    {
        Held {
            enclaves: ArrayVec::new(),
            threads: ArrayVec::new(),
            regions: ArrayVec::new(),
            cells: ArrayVec::new(),
        }
    }

    /// Lets go of all records. Touches no place that none stands in.
    pub fn clear(&mut self)
        ensures { self.new ≡ nothing_held }
    {
        self.enclaves.clear();
        self.threads.clear();
        self.regions.clear();
        self.cells.clear();
    }

    /// How many objects are held.
    pub fn count(&self) -> usize
        ensures { result ≡ held_count self.now }
    {
        self.enclaves.len() + self.threads.len() + self.regions.len() + self.cells.len()
    }

    /// The first region that is held, Free where none is.
    pub fn first_region(&self) -> Region
        ensures { result ≡ first_region self.now }
    {
        match self.regions.first() {
            Some((_, region)) => *region,
            None => Region::Free,
        }
    }

    /// The first enclave that is held, an empty slot where none is.
    pub fn first_enclave(&self) -> Enclave
        ensures { result ≡ first_enclave self.now }
    {
        match self.enclaves.first() {
            Some((_, enclave)) => *enclave,
            None => Enclave::empty(),
        }
    }

    /// The second enclave that is held, an empty slot where there is none.
    pub fn second_enclave(&self) -> Enclave
        ensures { result ≡ second_enclave self.now }
    {
        match self.enclaves.get(1) {
            Some((_, enclave)) => *enclave,
            None => Enclave::empty(),
        }
    }

    /// The first thread that is held, an empty slot where none is.
    pub fn first_thread(&self) -> Thread
        ensures { result ≡ first_thread self.now }
    {
        match self.threads.first() {
            Some((_, thread)) => *thread,
            None => Thread::empty(),
        }
    }
}

impl Default for Held {
    ghost is_default = { λ h. h ≡ nothing_held };

    fn default() -> Held {
        Held::new()
    }
}
