//! Laws of the memory at the start. No code here runs.

ghost use Rattle.image_memory.specs.StartMemory.{HasItsWords, ZerosWithoutSegments, EachWord};

/// How many words there are at the start, that all are 0 where there is no segment, and which word each is.
pub fn start_by_word()
    ensures size { HasItsWords }
    ensures zeros { ZerosWithoutSegments }
    ensures word { EachWord }
{}
