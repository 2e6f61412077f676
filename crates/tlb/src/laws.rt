//! Laws of the cache. No code here runs.

ghost use Rattle.tlb.specs.Laws.{LooksBySet, FillsBySet, RunsBySet, FillsFitInSets, FillsKeepOneEach, RunsHaveOneEach, LooksAtOne};

/// The order of entries of different sets changes nothing that is looked up or filled in.
pub fn order_between_sets_is_not_seen()
    ensures looks { LooksBySet }
    ensures fills { FillsBySet }
    ensures runs { RunsBySet }
{}

/// No fill leaves a set with more than four entries.
pub fn fills_fit_in_sets()
    ensures { FillsFitInSets }
{}

/// No fill leaves a virtual page with two entries; so what an access finds is the one entry of its page, where
/// that permits it.
pub fn each_page_has_one_entry()
    ensures fills { FillsKeepOneEach }
    ensures runs { RunsHaveOneEach }
    ensures looks { LooksAtOne }
{}
