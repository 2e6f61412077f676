//! The one list of words.

ghost use Rattle.std.specs.Prelude.{◌≡◌, map};
ghost use Rattle.std.specs.List.{range_with_len};
ghost use Rattle.protocol.specs.Places.{Counter, Lock, Row, Dram};
ghost use Rattle.protocol.specs.Layout.{word_count, place_index, all_places};
ghost use Rattle.mon_model.specs.Examples.{r1, c1};
ghost use Rattle.protocol.specs.Alone.{two, e3, t2};
ghost use Rattle.protocol_runs.specs.Layouts.{tiny};

/// On a small machine the places of all words, one after the other, are 0, 1, 2 and so on: no place is left out, and no
/// two are one. On the machine of the runs: the counter is word 0, 34 lock words follow, then 8 rows of 29 words, 16 of
/// 37, 8 of 2 and 2 of 1, then DRAM.
pub fn places_are_in_a_row()
    ensures tiny { map (place_index tiny) (all_places tiny) ≡ range_with_len 0 (word_count tiny) }
    ensures counter { place_index two Counter ≡ 0 }
    ensures lock { place_index two (Lock r1) ≡ 26 }
    ensures enclave { place_index two (Row e3 5) ≡ 127 }
    ensures thread { place_index two (Row t2 4) ≡ 345 }
    ensures region { place_index two (Row r1 1) ≡ 862 }
    ensures cell { place_index two (Row c1 0) ≡ 876 }
    ensures dram { place_index two (Dram 7) ≡ 884 }
{}
