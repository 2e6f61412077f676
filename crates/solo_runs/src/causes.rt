//! Causes and values of traps that no access makes.

ghost use Rattle.std.specs.Prelude.{◌≡◌, [], ◌∷◌};
ghost use Rattle.hist.specs.declared.event.Event.TheVariants as events;
ghost use Rattle.solo_runs.specs.Entries.{trap};
ghost use Rattle.solo_runs.specs.Machines.{pc_of, reg_of};
ghost use Rattle.solo_runs.specs.Causes.{jumped, fetched_between, at_no_instruction, load_faulted};

/// A jump to an address that is no multiple of 4 traps on the jump, with the target as its value, and
/// writes no register.
pub fn misaligned_jump_traps()
    ensures log { jumped.log ≡ events.Touch 0 0 ∷ trap 1 0 0x8000_0002 ∷ [] }
    ensures register { reg_of jumped 1 ≡ 0 }
    ensures pc { pc_of jumped ≡ 0x8000_0000 }
{}

/// So does a fetch at such a pc, before anything is looked at.
pub fn misaligned_fetch_traps()
    ensures log { fetched_between.log ≡ trap 2 0 0x8000_0002 ∷ [] }
    ensures answers { fetched_between.answers ≡ [] }
{}

/// A word that is no instruction traps with its 32 bits, here the upper ones, as its value.
pub fn illegal_word_is_the_value()
    ensures log { at_no_instruction.log ≡ events.Touch 0 0 ∷ trap 1 2 0xFFFF_FFFE ∷ [] }
    ensures pc { pc_of at_no_instruction ≡ 0x8000_0004 }
{}

/// A trap leaves the pc and the registers as they were before the instruction.
pub fn trap_leaves_registers()
    ensures register { reg_of load_faulted 5 ≡ 9 }
    ensures pc { pc_of load_faulted ≡ 0x8000_0000 }
{}
