//! When the budget is looked at, and a `run` line without turns.

ghost use Rattle.std.specs.Prelude.{◌≡◌, [], ◌∷◌, ◌++◌, Some, None};
ghost use Rattle.mon_types.specs.declared.script.Line.TheVariants as lines;
ghost use Rattle.hist.specs.declared.event.Why.TheVariants as whys;
ghost use Rattle.protocol.specs.declared.action.Action.TheVariants as actions;
ghost use Rattle.protocol.specs.declared.action.Move.TheVariants as moves;
ghost use Rattle.core_behaviour_runs.specs.Machines.{t0};
ghost use Rattle.core_behaviour_runs.specs.Parts.{leaving, next_after, aex_meets};
ghost use Rattle.core_behaviour_runs.specs.Alone.{told_from, exits, loads_there};
ghost use Rattle.core_behaviour_runs.specs.Guests.{second_turn};
ghost use Rattle.core_behaviour_runs.specs.Limits.{leaving_after, turns_after};

/// Where too little is left of a budget the Limit is logged, and the pending exit is not tried: before a line, and
/// before a turn, where the refused exit before the line was one event more.
pub fn limit_comes_before_a_retry()
    ensures tried { next_after (leaving_after 16303) (lines.SetPc 0 ∷ []) [] ≡ Some (moves.InCall (actions.TryLock t0)) }
    ensures line { next_after (leaving_after 16304) (lines.SetPc 0 ∷ []) [] ≡ Some (moves.Stop 1 whys.Limit) }
    ensures turn { next_after (leaving_after 16303) (lines.Run 1 ∷ []) (aex_meets 1) ≡ Some (moves.Stop 1 whys.Limit) }
{}

/// The budget is looked at before each turn too, and a Limit there ends the script. Where it is enough for the second
/// turn, whose trap is one event more, the Limit is before the next line.
pub fn limit_comes_before_a_turn()
    ensures both { turns_after 16303 ≡ loads_there ++ second_turn ++ moves.Stop 2 whys.Limit ∷ [] }
    ensures limit { turns_after 16304 ≡ loads_there ++ moves.Stop 1 whys.Limit ∷ [] }
{}

/// Of a line `run 0` the retry before it is made, and nothing more.
pub fn run_0_has_one_retry()
    ensures tried { next_after leaving (lines.Run 0 ∷ []) [] ≡ Some (moves.InCall (actions.TryLock t0)) }
    ensures refused { next_after leaving (lines.Run 0 ∷ []) (aex_meets 1) ≡ None }
    ensures left { told_from leaving (lines.Run 0 ∷ lines.LoadWord 0x8000_0000 ∷ []) ≡ exits 1 13 ∷ loads_there }
{}
