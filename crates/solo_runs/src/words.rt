//! Loads, stores and atomic instructions: what is given, stored and put in a register.

ghost use Rattle.std.specs.Prelude.{◌≡◌, [], ◌∷◌};
ghost use Rattle.hist.specs.declared.event.Event.TheVariants as events;
ghost use Rattle.dram_map.specs.Words.{word_at};
ghost use Rattle.solo_runs.specs.Entries.{trap};
ghost use Rattle.solo_runs.specs.Machines.{two, back, store, add_word, pc_of, reg_of};
ghost use Rattle.solo_runs.specs.Words.{one_turn, load_byte, store_byte, load_to_zero, byte_loaded, byte_stored, word_stored, added, nothing_added, swapped, store_faulted, fence, fenced};

/// A load takes its bytes from one word, which is given.
pub fn load_takes_bytes_of_a_word()
    ensures register { reg_of byte_loaded 5 ≡ 0xFFFF_FFFF_FFFF_FF88 }
    ensures answers { byte_loaded.answers ≡ 1 ∷ two load_byte back ∷ 1 ∷ 0x8877_6655_4433_2211 ∷ [] }
    ensures pc { pc_of byte_loaded ≡ 0x8000_0004 }
{}

/// x0 is never changed.
pub fn load_leaves_x0()
    ensures { reg_of (one_turn load_to_zero 5 0) 0 ≡ 0 }
{}

/// A store of 8 bytes loads nothing; a narrower one loads the word and changes its bytes there.
pub fn narrow_store_loads_its_word()
    ensures byte { word_at byte_stored.words 512 ≡ 0x8877_6655_4407_2211 }
    ensures byte_answers { byte_stored.answers ≡ 1 ∷ two store_byte back ∷ 1 ∷ 0x8877_6655_4433_2211 ∷ [] }
    ensures word { word_at word_stored.words 512 ≡ 0xAA07 }
    ensures word_answers { word_stored.answers ≡ 1 ∷ two store back ∷ 1 ∷ [] }
    ensures pc { pc_of byte_stored ≡ 0x8000_0004 }
{}

/// An atomic instruction loads its word, stores the new value in its bytes, and puts the old one, its sign
/// extended, in rd.
pub fn atomic_is_a_load_and_a_store()
    ensures word { word_at added.words 512 ≡ 0x0000_0001_0000_0001 }
    ensures register { reg_of added 5 ≡ 0xFFFF_FFFF_FFFF_FFFF }
    ensures answers { added.answers ≡ 1 ∷ two add_word back ∷ 1 ∷ 0x0000_0001_FFFF_FFFF ∷ [] }
    ensures pc { pc_of added ≡ 0x8000_0004 }
{}

/// It does so also where nothing changes.
pub fn atomic_that_changes_nothing_loads()
    ensures word { word_at nothing_added.words 512 ≡ 0x0000_0001_FFFF_FFFF }
    ensures answers { nothing_added.answers ≡ 1 ∷ two add_word back ∷ 1 ∷ 0x0000_0001_FFFF_FFFF ∷ [] }
{}

/// The operand is read before rd is written, where both are one register.
pub fn atomic_reads_its_operand_first()
    ensures word { word_at swapped.words 512 ≡ 9 }
    ensures register { reg_of swapped 7 ≡ 0x8877_6655_4433_2211 }
{}

/// A store that faults stores nothing.
pub fn faulting_store_stores_nothing()
    ensures word { word_at store_faulted.words 1024 ≡ 0 }
    ensures log { store_faulted.log ≡ events.Touch 0 0 ∷ trap 1 7 0x8000_2000 ∷ [] }
{}

/// A fence goes on to the next instruction and does nothing else.
pub fn fence_does_nothing()
    ensures pc { pc_of fenced ≡ 0x8000_0004 }
    ensures words { word_at fenced.words 512 ≡ 5 }
    ensures answers { fenced.answers ≡ 1 ∷ two fence back ∷ [] }
    ensures log { fenced.log ≡ events.Touch 0 0 ∷ [] }
{}
