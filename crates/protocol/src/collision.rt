//! Two cores, and a lock that is found held.

ghost use Rattle.std.specs.Prelude.{◌≡◌, [], ◌∷◌, drop};
ghost use Rattle.protocol.specs.Places.{Counter, Lock, Row, Dram};
ghost use Rattle.protocol.specs.Views.{core_log, answers_of, held_of, call_moves};
ghost use Rattle.protocol.specs.Runs.{moves_of};
ghost use Rattle.mon_model.specs.Examples.{r1};
ghost use Rattle.protocol.specs.Collision.{collision, collision_outcomes, expected_outcomes, last_words, part, first_log, second_log};

/// A core that finds a held lock draws its ticket at once, and names the call that holds it. What each core has made,
/// logged, held and been answered is read off its own moves, and each move acts on one word.
pub fn collision_of_two()
    ensures outcomes { collision_outcomes ≡ expected_outcomes }
    ensures counter { last_words Counter ≡ 2 }
    ensures lock { last_words (Lock r1) ≡ 0 }
    ensures own_word { last_words (Row r1 0) ≡ 2 }
    ensures at { last_words (Row r1 1) ≡ 2 }
    ensures swapped { last_words (Dram 1024) ≡ 5 }
    ensures first_log { core_log 0 (part 0) ≡ first_log }
    ensures second_log { core_log 1 (part 1) ≡ second_log }
    ensures answers { answers_of (part 1) ≡ 2 ∷ 1 ∷ 1 ∷ 0 ∷ 5 ∷ [] }
    ensures holds { held_of (moves_of 0 (drop 6 collision)) ≡ r1 ∷ [] }
    ensures over { call_moves (part 0) ≡ [] }
{}
