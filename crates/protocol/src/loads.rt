//! The calls that load an enclave. Where one is Ok its moves are shown up to the words of the measurement.

ghost use Rattle.std.specs.Prelude.{◌≡◌, []};
ghost use Rattle.mon_types.specs.declared.region.Region.TheVariants as regions;
ghost use Rattle.mon_types.specs.declared.call.Call.TheVariants as calls;
ghost use Rattle.mon_model.specs.State.{with_region, with_thread};
ghost use Rattle.protocol.specs.Alone.{by_os, first_moves};
ghost use Rattle.protocol.specs.LoadRuns.{without_root, with_root, loading, dram_with, to_page_2, to_page_3, taken_thread, load_root_ok, load_table_1_ok, load_table_0_ok, load_table_no_parent, load_table_taken, load_table_refused, reserve_ok, reserve_refused, load_page_ok, load_page_denied, load_page_refused, load_thread_ok, load_thread_refused};

/// A load_table loads the entries on its path, and stores its own at the last.
pub fn load_table_moves()
    ensures root { first_moves 33 (loading without_root) [] by_os (calls.LoadTable 3 0 2 4) ≡ load_root_ok }
    ensures level_1 { first_moves 34 (loading with_root) (dram_with 0 0) by_os (calls.LoadTable 3 0 1 4) ≡ load_table_1_ok }
    ensures level_0 { first_moves 35 (loading with_root) (dram_with to_page_2 0) by_os (calls.LoadTable 3 0 0 4) ≡ load_table_0_ok }
    ensures no_parent { first_moves 2000 (loading with_root) (dram_with 0 0) by_os (calls.LoadTable 3 0 0 4) ≡ load_table_no_parent }
    ensures taken { first_moves 2000 (loading with_root) (dram_with to_page_2 0) by_os (calls.LoadTable 3 0 1 4) ≡ load_table_taken }
    ensures refused { first_moves 2000 (loading with_root) (dram_with 0 0) by_os (calls.LoadTable 3 0 1 3) ≡ load_table_refused }
{}

/// A reserve loads three entries, and stores its own at the last.
pub fn reserve_moves()
    ensures ok { first_moves 36 (loading with_root) (dram_with to_page_2 to_page_3) by_os (calls.Reserve 3 0 5 3) ≡ reserve_ok }
    ensures refused { first_moves 2000 (loading with_root) (dram_with to_page_2 0) by_os (calls.Reserve 3 0 5 3) ≡ reserve_refused }
{}

/// A load_page copies 512 words, each stored once it is loaded, and then stores its entry.
pub fn load_page_moves()
    ensures ok { first_moves 1063 (loading with_root) (dram_with to_page_2 to_page_3) by_os (calls.LoadPage 3 0 4 5 5) ≡ load_page_ok }
    ensures denied { first_moves 2000 (with_region (loading with_root) 5 regions.Free) (dram_with to_page_2 to_page_3) by_os (calls.LoadPage 3 0 4 5 5) ≡ load_page_denied }
    ensures refused { first_moves 2000 (loading with_root) (dram_with to_page_2 0) by_os (calls.LoadPage 3 0 4 5 5) ≡ load_page_refused }
{}

/// A load_thread.
pub fn load_thread_moves()
    ensures ok { first_moves 70 (loading with_root) [] by_os (calls.LoadThread 3 2 64 128) ≡ load_thread_ok }
    ensures refused { first_moves 2000 (with_thread (loading with_root) 2 taken_thread) [] by_os (calls.LoadThread 3 2 64 128) ≡ load_thread_refused }
{}
