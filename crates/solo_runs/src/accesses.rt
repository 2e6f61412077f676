//! Accesses without page tables: misalignment, the end of DRAM, looks and touches, and the range of an enclave.

ghost use Rattle.std.specs.Prelude.{◌≡◌, [], ◌∷◌};
ghost use Rattle.mon_types.specs.declared.call.Call.TheVariants as calls;
ghost use Rattle.hist.specs.declared.event.Event.TheVariants as events;
ghost use Rattle.mon_types.specs.declared.region.Owner.TheVariants as owners;
ghost use Rattle.mon_types.specs.declared.region.Region.TheVariants as regions;
ghost use Rattle.mon_types.specs.Replies.{done};
ghost use Rattle.mon_model.specs.Examples.{r1, c0};
ghost use Rattle.hist.specs.Rows.{entry};
ghost use Rattle.solo_runs.specs.Entries.{trap};
ghost use Rattle.solo_runs.specs.Machines.{reg_of, regs_from, two, load, store, add_word, sfence};
ghost use Rattle.solo_runs.specs.Accesses.{each_tried, both_misaligned, fetched_outside, both_ends_of_dram, loaded_twice, loaded_when_blocked, loaded_from, loaded_after_touch, loaded_from_enclave, loaded_inside, stored_outside_range, fenced_between, flushed_between};

/// Misalignment is tested first: the address is also outside DRAM. An atomic instruction has the cause of a
/// store.
pub fn misalignment_comes_first()
    ensures turns { (each_tried 2).log ≡ events.Touch 0 0 ∷ trap 1 4 2 ∷ trap 3 6 2 ∷ trap 5 6 2 ∷ [] }
    ensures lines { both_misaligned.log ≡ trap 1 4 4 ∷ trap 2 6 4 ∷ [] }
    ensures no_look { both_misaligned.answers ≡ [] }
{}

/// Outside DRAM each access has its own access fault, and no look is made.
pub fn outside_dram_is_an_access_fault()
    ensures turns { (each_tried 0x7000).log ≡ events.Touch 0 0 ∷ trap 1 5 0x7000 ∷ trap 3 7 0x7000 ∷ trap 5 7 0x7000 ∷ [] }
    ensures answers { (each_tried 0x7000).answers ≡ 1 ∷ two load store ∷ two load store ∷ add_word ∷ [] }
    ensures fetch { fetched_outside.log ≡ trap 2 1 0x7000 ∷ [] }
    ensures end { both_ends_of_dram.log ≡ events.Touch 7 0 ∷ trap 2 5 0x8000_8000 ∷ [] }
    ensures no_look { fetched_outside.answers ≡ [] }
{}

/// Where the translation cache holds the page, no look is made, whatever became of the region in the
/// meantime.
pub fn cached_page_is_not_looked_at()
    ensures answers { loaded_twice.answers ≡ 1 ∷ 0 ∷ 0 ∷ [] }
    ensures blocked { loaded_when_blocked.answers ≡ 1 ∷ 0 ∷ 0 ∷ 2 ∷ [] }
    ensures log { loaded_when_blocked.log ≡ events.Touch 1 0 ∷ events.Entry (entry 1 0 0 (calls.Block 1) done (r1 ∷ [])) ∷ events.Entry (entry 2 0 1 calls.Flush done (c0 ∷ [])) ∷ trap 5 5 0x8000_1000 ∷ [] }
{}

/// A look that is not good is made and then faults, and is no touch: at a region of another owner, and at
/// one that is blocked, offered or free.
pub fn look_that_is_not_good_faults()
    ensures foreign { loaded_from_enclave.answers ≡ 709 ∷ [] }
    ensures foreign_log { loaded_from_enclave.log ≡ trap 1 5 0x8000_2000 ∷ [] }
    ensures blocked { (loaded_from (regions.Blocked owners.Os 3 9)).answers ≡ 194 ∷ [] }
    ensures blocked_log { (loaded_from (regions.Blocked owners.Os 3 9)).log ≡ trap 1 5 0x8000_1000 ∷ [] }
    ensures offered { (loaded_from (regions.Offered 0 9)).answers ≡ 583 ∷ [] }
    ensures offered_log { (loaded_from (regions.Offered 0 9)).log ≡ trap 1 5 0x8000_1000 ∷ [] }
    ensures free { (loaded_from regions.Free).answers ≡ 0 ∷ [] }
    ensures free_log { (loaded_from regions.Free).log ≡ trap 1 5 0x8000_1000 ∷ [] }
{}

/// A touch has the ticket since which the region is owned, and a later period of the region is touched anew.
pub fn touch_has_the_period()
    ensures first { (loaded_from (regions.Owned owners.Os 3)).log ≡ events.Touch 1 3 ∷ [] }
    ensures same { (loaded_after_touch (regions.Owned owners.Os 0)).log ≡ [] }
    ensures later { (loaded_after_touch (regions.Owned owners.Os 3)).log ≡ events.Touch 1 3 ∷ [] }
{}

/// An enclave has its page tables from its base on up to, and without, base plus size; at any other address
/// satp decides, here Bare.
pub fn enclave_has_its_range()
    ensures base { reg_of (loaded_inside 0x10000) 10 ≡ 77 }
    ensures below { regs_from (loaded_inside 0xFFF8) 10 ≡ 0 ∷ 1 ∷ 5 ∷ 0xFFF8 ∷ [] }
    ensures last { regs_from (loaded_inside 0x13FF8) 10 ≡ 0 ∷ 1 ∷ 13 ∷ 0x13FF8 ∷ [] }
    ensures end { regs_from (loaded_inside 0x14000) 10 ≡ 0 ∷ 1 ∷ 5 ∷ 0x14000 ∷ [] }
{}

/// Outside its range an enclave reaches the OS's regions.
pub fn outside_its_range_it_reaches_the_os()
    ensures word { reg_of stored_outside_range 10 ≡ 88 }
    ensures log { stored_outside_range.log ≡ events.Touch 1 0 ∷ [] }
{}

/// `sfence.vma` in OS mode empties the translation cache and makes no event, so that the next access looks
/// again; the touch is not logged again.
pub fn sfence_keeps_touches()
    ensures answers { fenced_between.answers ≡ 1 ∷ 0 ∷ 1 ∷ two sfence sfence ∷ 1 ∷ 0 ∷ [] }
    ensures log { fenced_between.log ≡ events.Touch 1 0 ∷ events.Touch 0 0 ∷ [] }
{}

/// The first good look at a period since the last clear is a touch: after a flush it is logged again.
pub fn flush_forgets_touches()
    ensures { flushed_between.log ≡ events.Touch 1 0 ∷ events.Entry (entry 1 0 0 calls.Flush done (c0 ∷ [])) ∷ events.Touch 1 0 ∷ [] }
{}
