//! Two cores, and a lock that is found held.

ghost use Rattle.std.specs.Prelude.{◌≡◌, [], ◌∷◌, None};
ghost use Rattle.mon_types.specs.declared.thread.Mode.TheVariants as modes;
ghost use Rattle.protocol.specs.Places.{Counter, Lock, Row};
ghost use Rattle.protocol.specs.Views.{core_log};
ghost use Rattle.protocol.specs.Runs.{moves_of};
ghost use Rattle.core_behaviour.specs.Course.{first_of, left_of};
ghost use Rattle.core_behaviour.specs.Runs.{course_of, finished_run};
ghost use Rattle.core_behaviour.specs.RunLaw.{cores_of};
ghost use Rattle.core_behaviour_runs.specs.Machines.{small, in_order, r1};
ghost use Rattle.core_behaviour_runs.specs.Collision.{both_block, collision, first_moves, other_moves, other_log, last_words, last_regions, last_logs, its_cores};

/// The cores step as the list says, and then in turn; the one that finds the other's lock draws its ticket first.
pub fn collision_by_a_schedule()
    ensures first { in_order 0 collision ≡ first_moves }
    ensures other { in_order 1 collision ≡ other_moves }
    ensures log { core_log 1 (moves_of 1 collision) ≡ other_log }
    ensures counter { last_words Counter ≡ 2 }
    ensures own_word { last_words (Row r1 0) ≡ 2 }
    ensures at { last_words (Row r1 1) ≡ 2 }
    ensures unlocked { last_words (Lock r1) ≡ 0 }
    ensures over { first_of (left_of (course_of (small 2 []) both_block 0) (moves_of 0 collision)) ≡ None }
    ensures other_over { first_of (left_of (course_of (small 2 []) both_block 1) (moves_of 1 collision)) ≡ None }
{}

/// What the run leaves: its tables are the records that the rows hold. It is the run of the list of its own cores.
pub fn collision_is_finished()
    ensures regions { (finished_run (small 2 []) collision).regions ≡ last_regions }
    ensures logs { (finished_run (small 2 []) collision).logs ≡ last_logs }
    ensures flushed { (finished_run (small 2 []) collision).flushed ≡ 0 ∷ 0 ∷ [] }
    ensures modes { (finished_run (small 2 []) collision).modes ≡ modes.Os ∷ modes.Os ∷ [] }
    ensures cores { cores_of collision ≡ its_cores }
{}
