//! Laws of the definitions.

ghost use Rattle.core_behaviour.specs.RunLaw.{RunLaw};

/// A list of moves that are given from the start, and in which each core makes the moves of its own lines up to its end,
/// leaves the finished run of the list of their cores.
pub fn runs_are_of_their_cores()
    ensures { RunLaw }
{}
