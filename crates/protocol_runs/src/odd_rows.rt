//! Rows of words that are no record, as calls read them.

ghost use Rattle.std.specs.Prelude.{◌≡◌, ◌+◌, ◌^◌, []};
ghost use Rattle.mon_types.specs.Owns.{os_word};
ghost use Rattle.mon_types.specs.declared.call.Call.TheVariants as calls;
ghost use Rattle.protocol.specs.Places.{Row};
ghost use Rattle.mon_model.specs.Examples.{r1, c1};
ghost use Rattle.protocol.specs.Alone.{begin, by_os, odd_moves, first_moves, e3};
ghost use Rattle.protocol.specs.RegionRuns.{blocked_at_5};
ghost use Rattle.protocol_runs.specs.EnclaveRuns.{deletable};
ghost use Rattle.protocol.specs.LoadRuns.{with_root, loading, dram_with};
ghost use Rattle.protocol_runs.specs.OddRows.{owned_by_nobody, odd_region_info, odd_block, odd_assign, odd_free, odd_delete, odd_load_table, to_page_8, odd_path};

/// Two words that are no region's row are Free. A call that is Ok writes what is to stand there, and a refused one
/// nothing.
pub fn odd_rows_of_regions()
    ensures info { odd_moves begin [] (Row r1 0) owned_by_nobody by_os (calls.RegionInfo 1) ≡ odd_region_info }
    ensures block { odd_moves begin [] (Row r1 0) owned_by_nobody by_os (calls.Block 1) ≡ odd_block }
    ensures assign { odd_moves begin [] (Row r1 1) 5 by_os (calls.Assign 1 os_word) ≡ odd_assign }
{}

/// A cell's word above the greatest u32 is 0.
pub fn odd_rows_of_cells()
    ensures free { odd_moves (blocked_at_5 6 7) [] (Row c1 0) (2 ^ 32 + 7) by_os (calls.Free 1) ≡ odd_free }
{}

/// Bits of a set from the number of regions on are left out, and a root past the last page is none.
pub fn odd_rows_of_enclaves()
    ensures set { odd_moves deletable [] (Row e3 3) 262 by_os (calls.Delete 3) ≡ odd_delete }
    ensures root { odd_moves (loading with_root) [] (Row e3 4) 9 by_os (calls.LoadTable 3 0 1 4) ≡ odd_load_table }
{}

/// An entry that leads to no page of DRAM counts as a missing table.
pub fn odd_entry()
    ensures path { first_moves 2000 (loading with_root) (dram_with to_page_8 0) by_os (calls.LoadTable 3 0 0 4) ≡ odd_path }
{}
