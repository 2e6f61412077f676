//! What is counted of a region.

ghost use Rattle.std.specs.Prelude.{◌≡◌, ◌<◌, ◌+◌, ◌^◌};
ghost use Rattle.llc.specs.Tallies.{counted};

/// How many accesses of a trace are a region's, and how many of these are hits.
#[derive(Clone, Copy, Debug, PartialEq, Eq)]
pub struct Tally {
    /// The region's number.
    pub region: u8,
    pub accesses: u64,
    pub hits: u64,
}

impl Tally {
    /// Counts an access, which is a hit or not.
    pub(crate) fn count(&mut self, hit: bool)
        requires accesses { self.old.accesses + 1 < 2 ^ 64 }
        requires hits { self.old.hits + 1 < 2 ^ 64 }
        ensures { self.new ≡ counted hit self.old }
    {
        self.accesses += 1;
        if hit {
            self.hits += 1;
        }
    }
}
