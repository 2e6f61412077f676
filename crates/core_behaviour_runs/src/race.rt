//! Two cores, and a word into which both store.

ghost use Rattle.std.specs.Prelude.{◌≡◌};
ghost use Rattle.protocol.specs.Places.{Dram};
ghost use Rattle.protocol.specs.Views.{core_log};
ghost use Rattle.protocol.specs.Runs.{moves_of};
ghost use Rattle.core_behaviour_runs.specs.Machines.{in_order};
ghost use Rattle.core_behaviour_runs.specs.Race.{race, winner_moves, loser_moves, both_touch, raced_words};

/// A narrow store is a Load and a Swap. Where another core has stored between them nothing is stored, and the
/// instruction is made again in the next turn, without looks, since its pages are in the translation cache.
pub fn narrow_stores_of_two_cores()
    ensures winner { in_order 0 race ≡ winner_moves }
    ensures loser { in_order 1 race ≡ loser_moves }
    ensures log { core_log 1 (moves_of 1 race) ≡ both_touch }
    ensures word { raced_words (Dram 512) ≡ 513 }
{}
