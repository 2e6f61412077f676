//! Guest code, on a core that is alone.

ghost use Rattle.std.specs.Prelude.{◌≡◌, [], ◌∷◌, ◌++◌};
ghost use Rattle.hist.specs.declared.event.Why.TheVariants as whys;
ghost use Rattle.protocol.specs.declared.action.Move.TheVariants as moves;
ghost use Rattle.core_behaviour_runs.specs.Alone.{loads_there};
ghost use Rattle.core_behaviour_runs.specs.Shown.{count, sfence};
ghost use Rattle.core_behaviour_runs.specs.Guests.{lock_met, lock_told, two_turns, second_turn, fenced_inside, fence_told, trapped_load, trapped_turns, both_trapped};

/// A guest's call that meets a held lock is told so: the code, the object's number, the core that holds it and the
/// serial of that core's call go to x10 to x13, other registers stay, and the pc grows by 4.
pub fn guest_is_told_of_a_lock()
    ensures { lock_met ≡ lock_told }
{}

/// `sfence.vma` of the OS makes no move, and the next fetch looks again; behind another instruction it does not.
pub fn sfence_empties_the_cache()
    ensures fenced { two_turns sfence ≡ loads_there ++ loads_there ++ moves.Stop 1 (whys.Trap 2 0) ∷ [] }
    ensures other { two_turns count ≡ loads_there ++ second_turn }
{}

/// In an enclave it is an illegal instruction.
pub fn sfence_inside_is_illegal()
    ensures { fenced_inside ≡ fence_told }
{}

/// A trap of the OS is logged and ends its line, and the script goes on with the next one; the pc stays.
pub fn trap_ends_its_line()
    ensures load { trapped_load ≡ moves.Stop 1 (whys.Trap 4 1) ∷ loads_there }
    ensures turns { trapped_turns ≡ both_trapped }
{}
