//! Accesses by page tables: where the core looks, and for whom.

ghost use Rattle.std.specs.Prelude.{◌≡◌, ◌+◌, ◌*◌, true, [], ◌∷◌, ◌++◌};
ghost use Rattle.hist.specs.declared.event.Event.TheVariants as events;
ghost use Rattle.sv39_pte.specs.Tables.{pointer_pte, leaf_pte};
ghost use Rattle.tlb.specs.Cache.{entry_of};
ghost use Rattle.solo_runs.specs.Entries.{exit_entry, trap, tables_touched, own_touched};
ghost use Rattle.solo_runs.specs.Machines.{at, two, count, back, reg_of, regs_from, os_leaf};
ghost use Rattle.solo_runs.specs.Walks.{walked, walked_in_large_leaf, walked_inside, walked_outside_range, three_by_leaf, without_page, table_past_dram, page_past_dram, atomic_by_leaf};

/// The core looks at the region of each page-table entry and then loads the entry, and looks at the page's
/// region last; the translation is kept.
pub fn walk_looks_before_each_entry()
    ensures answers { walked.answers ≡ 1 ∷ pointer_pte 6 ∷ 1 ∷ pointer_pte 1 ∷ 1 ∷ os_leaf 0 0xCF ∷ 1 ∷ two count back ∷ [] }
    ensures log { walked.log ≡ tables_touched ++ events.Touch 0 0 ∷ [] }
    ensures cache { walked.guest.cache ≡ entry_of 0x80000 0 true true true ∷ [] }
{}

/// In a large leaf it looks at the region of the page of 4 KiB that is addressed, whose translation alone
/// is kept.
pub fn walk_looks_at_the_addressed_page()
    ensures log { walked_in_large_leaf.log ≡ events.Touch 7 0 ∷ events.Touch 6 0 ∷ events.Touch 3 0 ∷ [] }
    ensures cache { walked_in_large_leaf.guest.cache ≡ entry_of 0x80003 3 true true true ∷ [] }
{}

/// In its range an enclave walks from its own root, and entries and page are to be in its own regions.
pub fn walk_inside_is_the_enclave_s()
    ensures log { (walked_inside [] 0x10000).log ≡ own_touched ++ events.Touch 5 14 ∷ [] }
    ensures page { (walked_inside [] 0x11000).log ≡ own_touched ++ exit_entry 0x10000 5 ∷ [] }
    ensures page_answers { (walked_inside [] 0x11000).answers ≡ 709 ∷ pointer_pte 3 ∷ 773 ∷ pointer_pte 4 ∷ 837 ∷ leaf_pte 1 7 ∷ 1 ∷ [] }
    ensures table { (walked_inside (at 1024 (pointer_pte 6) ∷ []) 0x10000).log ≡ events.Touch 2 11 ∷ exit_entry 0x10000 5 ∷ [] }
    ensures table_answers { (walked_inside (at 1024 (pointer_pte 6) ∷ []) 0x10000).answers ≡ 709 ∷ pointer_pte 6 ∷ 1 ∷ [] }
{}

/// Outside its range it walks from satp's root, as a user, and entries and page are to be in regions of the
/// OS.
pub fn walk_outside_its_range_is_the_os_s()
    ensures log { (walked_outside_range (os_leaf 0 0xDF)).log ≡ tables_touched ++ events.Touch 0 0 ∷ [] }
    ensures register { reg_of (walked_outside_range (os_leaf 0 0xDF)) 10 ≡ two count back }
    ensures own_page { regs_from (walked_outside_range (os_leaf 5 0xDF)) 10 ≡ 0 ∷ 1 ∷ 5 ∷ 0x8000_0000 ∷ [] }
    ensures no_user { regs_from (walked_outside_range (os_leaf 0 0xCF)) 10 ≡ 0 ∷ 1 ∷ 13 ∷ 0x8000_0000 ∷ [] }
{}

/// Each access has its own page fault; so has every access of the OS by a user's leaf.
pub fn page_faults_are_of_the_access()
    ensures no_leaf { (three_by_leaf 0).log ≡ tables_touched ++ trap 1 13 0x8000_0000 ∷ trap 2 15 0x8000_0000 ∷ trap 3 12 0x8000_0000 ∷ [] }
    ensures user { (three_by_leaf (os_leaf 0 0xDF)).log ≡ tables_touched ++ trap 1 13 0x8000_0000 ∷ trap 2 15 0x8000_0000 ∷ trap 3 12 0x8000_0000 ∷ [] }
{}

/// An address without a page is a page fault before anything is looked at.
pub fn address_without_page_is_not_walked()
    ensures log { without_page.log ≡ trap 1 13 0x40_0000_0000 ∷ [] }
    ensures answers { without_page.answers ≡ [] }
{}

/// An entry or a page outside DRAM is an access fault, and nothing more is looked at.
pub fn walk_past_dram_is_an_access_fault()
    ensures table { table_past_dram.log ≡ events.Touch 7 0 ∷ trap 1 5 0x8000_0000 ∷ [] }
    ensures table_answers { table_past_dram.answers ≡ 1 ∷ pointer_pte 16 ∷ [] }
    ensures page { page_past_dram.log ≡ tables_touched ++ trap 1 5 0x8000_0000 ∷ [] }
    ensures page_answers { page_past_dram.answers ≡ 1 ∷ pointer_pte 6 ∷ 1 ∷ pointer_pte 1 ∷ 1 ∷ os_leaf 16 0xCF ∷ [] }
{}

/// An atomic instruction translates its address as a store: on a page that may be read and fetched from,
/// with W or D missing.
pub fn atomics_translate_as_stores()
    ensures no_write { (atomic_by_leaf 0xCB).log ≡ tables_touched ++ events.Touch 0 0 ∷ trap 1 15 0x8000_0100 ∷ [] }
    ensures not_dirty { (atomic_by_leaf 0x4F).log ≡ tables_touched ++ events.Touch 0 0 ∷ trap 1 15 0x8000_0100 ∷ [] }
    ensures register { reg_of (atomic_by_leaf 0xCF) 5 ≡ 0 }
    ensures may { (atomic_by_leaf 0xCF).log ≡ tables_touched ++ events.Touch 0 0 ∷ [] }
{}
