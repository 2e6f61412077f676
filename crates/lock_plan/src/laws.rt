//! Laws of plans. No code runs here.

ghost use Rattle.lock_plan.specs.Laws.{AskingGivesTries, OneMoreIsHeld, FirstSettles, TriesAscend, OneMoreIsTried};

/// Asking for the next object again and again, in a state that stays, gives exactly the objects that the
/// call tries there, in order.
pub fn asking_gives_tries()
    ensures { AskingGivesTries }
{}

/// The record of the next object, pushed behind the others of its kind, makes one more of the call's
/// objects held.
pub fn one_more_is_held()
    ensures { OneMoreIsHeld }
{}

/// The record of the first object settles what a call tries: no record that is held later adds or drops
/// an object.
pub fn first_settles()
    ensures { FirstSettles }
{}

/// Every call tries objects that the machine has, in the one order of all objects, each once: enclave
/// slots, thread slots, regions, cells, each from the lowest on.
pub fn tries_ascend()
    ensures { TriesAscend }
{}

/// The next object that a call tries is behind all of its kind, so that the sets of tried objects can be
/// made one object after the other.
pub fn one_more_is_tried()
    ensures { OneMoreIsTried }
{}
