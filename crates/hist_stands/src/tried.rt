//! Laws: the set of the objects that a call tried, against the list of them.

ghost use Rattle.hist_stands.specs.Laws.{TriedAreInSet, SetHasNoOthers};

/// Of objects of which none stands twice, as a call tries them, those and no others are in their set: so an entry
/// tells which objects its call has taken.
pub fn tried_and_their_set()
    ensures tried { TriedAreInSet }
    ensures no_others { SetHasNoOthers }
{}
