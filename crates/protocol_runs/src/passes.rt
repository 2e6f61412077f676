//! Passes that split and join, and that get one more move.

ghost use Rattle.std.specs.Prelude.{◌≡◌, List, [], ◌∷◌, map};
ghost use Rattle.protocol.specs.declared.action.Action.TheVariants as actions;
ghost use Rattle.protocol.specs.declared.action.Move.TheVariants as moves;
ghost use Rattle.protocol.specs.Places.{Lock};
ghost use Rattle.protocol.specs.Worlds.{made_now, world_after};
ghost use Rattle.protocol.specs.Passes.{Pass, first_pass, pass_after, IsSplit, IsAtRest, IsJoin, SplitKeeps, JoinKeeps};
ghost use Rattle.protocol.specs.Invariant.{SplitKeepsAll, JoinKeepsAll};
ghost use Rattle.mon_model.specs.Examples.{r1};
ghost use Rattle.protocol.specs.Alone.{two};
ghost use Rattle.protocol_runs.specs.Moments.{begun};
ghost use Rattle.protocol.specs.Permits.{has_lock};
ghost use Rattle.protocol_runs.specs.PassRuns.{both_passes, three, three_passes, after_join, after_lock, in_call};

/// A split and a join keep what the passes have together, and all ten items of the invariant.
pub fn steps_keep_passes()
    ensures split { SplitKeeps }
    ensures join { JoinKeeps }
    ensures split_all { SplitKeepsAll }
    ensures join_all { JoinKeepsAll }
{}

/// Core 0's pass splits off core 1's, and takes it in again; there is no third core, and no join in a call.
pub fn split_and_join()
    ensures split { IsSplit two 1 (first_pass ∷ []) both_passes }
    ensures join { IsJoin both_passes after_join }
    ensures no_third { (later : List Pass) → IsSplit two 2 both_passes later → ⊥ }
    ensures not_in_call { IsAtRest in_call → ⊥ }
{}

/// Of three cores, core 0's pass splits off core 1's and then core 2's, which stands behind core 1's.
pub fn two_splits()
    ensures first { IsSplit three 1 (first_pass ∷ []) both_passes }
    ensures second { IsSplit three 2 both_passes three_passes }
{}

/// A TryLock of core 0: the lock word, and the move in front of its core's view, in the world and in its pass.
pub fn one_move()
    ensures word { (world_after begun 0 (moves.InCall (actions.TryLock r1))).memory (Lock r1) ≡ 1 }
    ensures view { (world_after begun 0 (moves.InCall (actions.TryLock r1))).moves 0 ≡ has_lock }
    ensures other { (world_after begun 0 (moves.InCall (actions.TryLock r1))).moves 1 ≡ [] }
    ensures pass { map (pass_after (made_now begun 0 (moves.InCall (actions.TryLock r1)))) both_passes ≡ after_lock }
{}
