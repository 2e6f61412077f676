//! Budgets, and exits that are pending.

ghost use Rattle.std.specs.Prelude.{◌≡◌, ℕ, List, [], ◌∷◌, ◌++◌, length, Some, None};
ghost use Rattle.mon_types.specs.declared.call.Call.TheVariants as calls;
ghost use Rattle.mon_types.specs.declared.script.Line.TheVariants as lines;
ghost use Rattle.hist.specs.declared.event.Why.TheVariants as whys;
ghost use Rattle.protocol.specs.declared.action.Action.TheVariants as actions;
ghost use Rattle.protocol.specs.declared.action.Move.TheVariants as moves;
ghost use Rattle.core_behaviour_runs.specs.Machines.{r1, e0, t0};
ghost use Rattle.core_behaviour_runs.specs.Parts.{with_events, with_answers, first_of_block, inside, leaving, next_after, aex_finds, aex_refused, aex_meets, aex_meets_twice, aex_meets_thrice};

/// Before a line the events are counted: with 80 left it is begun, and with one less a Limit is logged at its number.
pub fn line_needs_80_events()
    ensures enough { first_of_block (with_events 16304) ≡ Some (moves.InCall (actions.TryLock r1)) }
    ensures too_few { first_of_block (with_events 16305) ≡ Some (moves.Stop 5 whys.Limit) }
{}

/// The same of 600 answers.
pub fn line_needs_600_answers()
    ensures enough { (answers : List ℕ) → length answers ≡ 1047976
        → first_of_block (with_answers answers) ≡ Some (moves.InCall (actions.TryLock r1)) }
    ensures too_few { (answers : List ℕ) → length answers ≡ 1047977
        → first_of_block (with_answers answers) ≡ Some (moves.Stop 5 whys.Limit) }
{}

/// A tick in an enclave is tried at once, by an aex of its thread.
pub fn tick_is_tried()
    ensures { next_after inside (lines.Tick ∷ []) [] ≡ Some (moves.InCall (actions.TryLock t0)) }
{}

/// A pending exit is tried before a line. Where its aex meets a held lock the exit stays pending: the line is carried
/// out all the same, as a call of the enclave; and before the next line the exit is tried again.
pub fn exit_is_tried_before_a_line()
    ensures tried { next_after leaving (lines.Make (calls.Block 1) ∷ []) [] ≡ Some (moves.InCall (actions.TryLock t0)) }
    ensures carried_out { next_after leaving (lines.Make (calls.Block 1) ∷ []) (aex_meets 1)
        ≡ Some (moves.InCall (actions.TryLock e0)) }
    ensures again { next_after leaving (lines.SetPc 0 ∷ lines.SetPc 0 ∷ []) (aex_meets 1)
        ≡ Some (moves.InCall (actions.TryLock t0)) }
{}

/// Before a `run` line a pending exit is tried once, and again before its first turn. A turn whose retry is refused is
/// spent without an instruction.
pub fn exit_is_tried_before_a_turn()
    ensures first { next_after leaving (lines.Run 2 ∷ []) (aex_meets 1) ≡ Some (moves.InCall (actions.TryLock t0)) }
    ensures second { next_after leaving (lines.Run 2 ∷ []) aex_meets_twice ≡ Some (moves.InCall (actions.TryLock t0)) }
    ensures spent { next_after leaving (lines.Run 2 ∷ []) aex_meets_thrice ≡ None }
{}

/// A trap or a tick while an exit is pending makes no further try of it then, and the first cause stays.
pub fn first_exit_stays()
    ensures tick { next_after leaving (lines.Tick ∷ []) (aex_meets 1) ≡ None }
    ensures trap { next_after leaving (lines.LoadWord 1 ∷ []) (aex_meets 1) ≡ None }
    ensures cause { next_after leaving (lines.Tick ∷ lines.SetPc 0 ∷ []) (aex_finds ++ aex_meets 1)
        ≡ Some (moves.InCall (aex_refused 2)) }
{}
