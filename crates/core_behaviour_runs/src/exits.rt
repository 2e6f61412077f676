//! Enclaves that are left, by a core that is alone.

ghost use Rattle.std.specs.Prelude.{◌≡◌, [], ◌∷◌, ◌++◌};
ghost use Rattle.mon_types.specs.Budgets.{tick_cause};
ghost use Rattle.mon_types.specs.declared.script.Line.TheVariants as lines;
ghost use Rattle.core_behaviour_runs.specs.Parts.{inside, leaving};
ghost use Rattle.core_behaviour_runs.specs.Alone.{told_from, told_behind_refusal, inside_by_guest, exits, loads_there, os_turn};

/// A tick leaves the enclave, and the next line is one of the OS, which looks and loads.
pub fn tick_leaves()
    ensures { told_from inside (lines.Tick ∷ lines.LoadWord 0x8000_0000 ∷ []) ≡ exits 1 tick_cause ∷ loads_there }
{}

/// A trap inside is an exit. The `run` line ends there where a line entered the enclave; where guest code did, the OS
/// goes on with the turns that are left, without translations, and its own trap ends the line.
pub fn trap_inside_leaves()
    ensures by_line { told_from inside (lines.Run 5 ∷ []) ≡ loads_there ++ exits 1 2 ∷ [] }
    ensures by_guest { told_from (inside_by_guest inside) (lines.Run 5 ∷ []) ≡ loads_there ++ exits 1 2 ∷ os_turn }
{}

/// Where the retry before a `run` line is Ok the line is carried out all the same, by the OS. Where that was refused
/// and the one before the first turn is Ok, the line ends if a line entered the enclave, and else an instruction of
/// the OS follows in the same turn.
pub fn retry_that_is_ok()
    ensures before_line { told_from leaving (lines.Run 1 ∷ []) ≡ exits 1 13 ∷ os_turn }
    ensures before_turn { told_behind_refusal leaving (lines.Run 1 ∷ []) ≡ exits 2 13 ∷ [] }
    ensures by_guest { told_behind_refusal (inside_by_guest leaving) (lines.Run 1 ∷ []) ≡ exits 2 13 ∷ os_turn }
{}
