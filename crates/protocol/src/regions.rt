//! The calls on regions.

ghost use Rattle.std.specs.Prelude.{◌≡◌, []};
ghost use Rattle.mon_types.specs.declared.region.Owner.TheVariants as owners;
ghost use Rattle.mon_types.specs.declared.region.Region.TheVariants as regions;
ghost use Rattle.mon_types.specs.declared.call.Call.TheVariants as calls;
ghost use Rattle.mon_types.specs.Locks.{lock_word};
ghost use Rattle.mon_types.specs.Owns.{os_word};
ghost use Rattle.mon_model.specs.State.{with_flushed};
ghost use Rattle.mon_model.specs.Examples.{r1};
ghost use Rattle.protocol.specs.Places.{Lock};
ghost use Rattle.protocol.specs.Alone.{begin, by_os, by_enclave, all_moves, odd_moves};
ghost use Rattle.protocol.specs.RegionRuns.{with_r1, blocked_at_5, r1_of_e3, e3_loading, e3_initialized, r1_free_beside, r1_offered, block_ok, block_refused, block_by_enclave, block_meets, free_ok, free_not_flushed, free_refused, assign_ok, assign_to_enclave, assign_offers, assign_refused, flush_ok, flush_refused, region_info_ok, region_info_refused, accept_region_ok, accept_region_refused};

/// A block writes the own-word before it draws. Where it finds a held lock it draws at once, and gives back what it holds.
pub fn block_moves()
    ensures ok { all_moves begin by_os (calls.Block 1) ≡ block_ok }
    ensures refused { all_moves (with_r1 regions.Free) by_os (calls.Block 1) ≡ block_refused }
    ensures by_enclave { all_moves r1_of_e3 by_enclave (calls.Block 1) ≡ block_by_enclave }
    ensures meets { odd_moves r1_of_e3 [] (Lock r1) (lock_word 0 5) by_enclave (calls.Block 1) ≡ block_meets }
{}

/// A free stores its zeros after it has drawn.
pub fn free_moves()
    ensures ok { all_moves (blocked_at_5 6 7) by_os (calls.Free 1) ≡ free_ok }
    ensures not_flushed { all_moves (blocked_at_5 6 4) by_os (calls.Free 1) ≡ free_not_flushed }
    ensures refused { all_moves begin by_os (calls.Free 1) ≡ free_refused }
{}

/// An assign makes an owner, or an offer.
pub fn assign_moves()
    ensures ok { all_moves (with_r1 regions.Free) by_os (calls.Assign 1 os_word) ≡ assign_ok }
    ensures to_enclave { all_moves (r1_free_beside e3_loading) by_os (calls.Assign 1 3) ≡ assign_to_enclave }
    ensures offers { all_moves (r1_free_beside e3_initialized) by_os (calls.Assign 1 3) ≡ assign_offers }
    ensures refused { all_moves begin by_os (calls.Assign 1 os_word) ≡ assign_refused }
{}

/// A flush writes the core's own cell.
pub fn flush_moves()
    ensures ok { all_moves (with_flushed begin 1 7) by_os calls.Flush ≡ flush_ok }
    ensures refused { all_moves begin by_enclave calls.Flush ≡ flush_refused }
{}

/// A region_info writes nothing.
pub fn region_info_moves()
    ensures ok { all_moves (blocked_at_5 0 0) by_os (calls.RegionInfo 1) ≡ region_info_ok }
    ensures refused { all_moves begin by_os (calls.RegionInfo 8) ≡ region_info_refused }
{}

/// An accept_region writes the set and the own-word after it has drawn.
pub fn accept_region_moves()
    ensures ok { all_moves r1_offered by_enclave (calls.AcceptRegion 1) ≡ accept_region_ok }
    ensures refused { all_moves (r1_free_beside e3_initialized) by_enclave (calls.AcceptRegion 1) ≡ accept_region_refused }
{}
