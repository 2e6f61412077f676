//! Laws of the coloured cache. No code here runs.

ghost use Rattle.llc.specs.Hits.{HitsAreComputed};
ghost use Rattle.llc.specs.Regions.{OwnHits, SameHits};
ghost use Rattle.llc.specs.Tallies.{OwnTally, SameTally};

/// What looking back from an access computes is whether it is a hit. So what is counted and printed are hits.
pub fn hits_are_computed()
    ensures { HitsAreComputed }
{}

/// The hits of a region are those of its accesses alone, and so is what is counted of it; so two lists of
/// accesses that agree on those of a region give that region the same, whatever stands between.
pub fn regions_apart()
    ensures own { OwnHits }
    ensures same { SameHits }
    ensures own_tally { OwnTally }
    ensures same_tally { SameTally }
{}
