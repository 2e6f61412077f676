//! The translation cache: what is found in it, what a fill drops, and which calls clear it.

ghost use Rattle.std.specs.Prelude.{◌≡◌, true, [], ◌∷◌};
ghost use Rattle.mon_types.specs.declared.call.Call.TheVariants as calls;
ghost use Rattle.dram_map.specs.Words.{word_at};
ghost use Rattle.tlb.specs.Cache.{entry_of};
ghost use Rattle.core_access.specs.Touched.{touch_of};
ghost use Rattle.solo_runs.specs.Machines.{reg_of};
ghost use Rattle.solo_runs.specs.Cache.{to_page_3, loaded_by_old, stored_past_old, of_page, filled_in, used_by_os, used_inside, used_and_ticked};

/// An entry that permits the access is used as it is.
pub fn found_entry_is_used()
    ensures register { reg_of loaded_by_old 10 ≡ 33 }
    ensures answers { loaded_by_old.answers ≡ 33 ∷ [] }
{}

/// One that forbids it is a miss: the address is translated anew, and the new entry takes its place.
pub fn forbidding_entry_is_a_miss()
    ensures word { word_at stored_past_old.words 512 ≡ 5 }
    ensures old_page { word_at stored_past_old.words 1536 ≡ 33 }
    ensures answers { stored_past_old.answers ≡ 1 ∷ [] }
    ensures cache { stored_past_old.guest.cache ≡ entry_of 0x80001 1 true true true ∷ [] }
{}

/// A fill drops the oldest of its set where four are there, and comes last; other sets stay.
pub fn fill_drops_the_oldest_of_its_set()
    ensures { filled_in.guest.cache ≡ of_page 4 ∷ of_page 8 ∷ of_page 12 ∷ entry_of 0x80000 0 true true true ∷ of_page 1 ∷ [] }
{}

/// Ok of flush, set_satp, enter, exit and aex clears translations.
pub fn five_calls_clear_translations()
    ensures flush { (used_by_os calls.Flush).guest.cache ≡ [] }
    ensures set_satp { (used_by_os (calls.SetSatp 0)).guest.cache ≡ [] }
    ensures enter { (used_by_os (calls.Enter 0 0)).guest.cache ≡ [] }
    ensures exit { (used_inside calls.Exit).guest.cache ≡ [] }
    ensures aex { used_and_ticked.guest.cache ≡ [] }
{}

/// And it clears touches.
pub fn five_calls_clear_touches()
    ensures flush { (used_by_os calls.Flush).guest.touches ≡ [] }
    ensures set_satp { (used_by_os (calls.SetSatp 0)).guest.touches ≡ [] }
    ensures enter { (used_by_os (calls.Enter 0 0)).guest.touches ≡ [] }
    ensures exit { (used_inside calls.Exit).guest.touches ≡ [] }
    ensures aex { used_and_ticked.guest.touches ≡ [] }
{}

/// No other call does, nor one of them that is refused.
pub fn other_calls_clear_nothing()
    ensures restore { (used_inside calls.Restore).guest.cache ≡ to_page_3 ∷ [] }
    ensures block { (used_by_os (calls.Block 1)).guest.cache ≡ to_page_3 ∷ [] }
    ensures refused { (used_by_os (calls.Enter 1 0)).guest.cache ≡ to_page_3 ∷ [] }
    ensures refused_satp { (used_by_os (calls.SetSatp 1)).guest.cache ≡ to_page_3 ∷ [] }
    ensures touches { (used_inside calls.Restore).guest.touches ≡ touch_of 3 0 ∷ [] }
{}
