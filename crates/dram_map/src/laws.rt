//! Laws of stores in DRAM. No code here runs.

ghost use Rattle.dram_map.specs.ByWord.{PutByWord, CopiedByWord, ClearedByWord, RegionClearedByWord};

/// What storing a word, copying a page, and clearing a page or a region make of each word of DRAM.
pub fn stores_by_word()
    ensures put { PutByWord }
    ensures copied { CopiedByWord }
    ensures cleared { ClearedByWord }
    ensures region { RegionClearedByWord }
{}
