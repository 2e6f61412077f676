//! From an image to the words of DRAM.

ghost use Rattle.std.specs.Prelude.{◌≡◌, ◌%◌, ◌≤◌, length, IfOk};
ghost use Rattle.dram_map.specs.Addresses.{dram_start, word_total};
ghost use Rattle.image_read.specs.Image.{AreSegments};
ghost use Rattle.image_memory.specs.StartMemory.{start_memory, IsStored};

use dram_map::{DRAM_START, Memory};
use mon_types::{Image, Segment};
use std::alloc::{AllocError, Global};

/// Stores the words of a segment. Words past the end of DRAM are stored nowhere.
fn store_segment(memory: &mut Memory, segment: &Segment)
    requires from { dram_start ≤ segment.now.address }
    requires aligned { segment.now.address % 8 ≡ 0 }
    ensures words { IsStored segment.now memory.old memory.new }
    ensures size { length memory.new ≡ length memory.old }
{
    let first = (segment.address - DRAM_START) / 8;
    let words = segment.words.as_slice();
    for (i, word) in words.iter().enumerate() {
        memory.put(Some(first + i as u64), *word);
    }
}

/// The words of DRAM at the start of an image whose segments lie in DRAM, ascending and without overlap: at each
/// address the word of the segment that lies there, and 0 where none does. Takes time in the number of words.
pub fn start_memory(alloc: Global, image: &Image) -> Result<Memory, AllocError>
    requires { AreSegments image.now.config dram_start image.now.segments }
    ensures words { IfOk result (λ m. m ≡ start_memory image.now.config image.now.segments) }
    ensures size { IfOk result (λ m. length m ≡ word_total image.now.config) }
{
    let mut memory = Memory::new(alloc, &image.config)?;
    let segments = image.segments.as_slice();
    for segment in segments {
        store_segment(&mut memory, segment);
    }
    Ok(memory)
}
