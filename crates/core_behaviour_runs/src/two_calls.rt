//! One core, and two calls.

ghost use Rattle.std.specs.Prelude.{◌≡◌, [], None};
ghost use Rattle.protocol.specs.Places.{Counter, Lock, Row};
ghost use Rattle.protocol.specs.Views.{core_log};
ghost use Rattle.protocol.specs.Runs.{moves_of};
ghost use Rattle.core_behaviour.specs.Course.{first_of, left_of};
ghost use Rattle.core_behaviour.specs.Runs.{course_of};
ghost use Rattle.core_behaviour_runs.specs.Machines.{small, in_order, r1, c0};
ghost use Rattle.core_behaviour_runs.specs.TwoCalls.{block_and_flush, two_calls, their_moves, their_log, their_words};

/// A script's calls are made one after the other, each by its moves, and the core ends behind the last one.
pub fn two_calls_of_one_core()
    ensures moves { in_order 0 two_calls ≡ their_moves }
    ensures over { first_of (left_of (course_of (small 1 []) block_and_flush 0) (moves_of 0 two_calls)) ≡ None }
    ensures log { core_log 0 (moves_of 0 two_calls) ≡ their_log }
    ensures counter { their_words Counter ≡ 2 }
    ensures own_word { their_words (Row r1 0) ≡ 2 }
    ensures at { their_words (Row r1 1) ≡ 1 }
    ensures cell { their_words (Row c0 0) ≡ 2 }
    ensures unlocked { their_words (Lock c0) ≡ 0 }
{}
