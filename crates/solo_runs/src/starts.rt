//! The core at the start of an image.

ghost use Rattle.std.specs.Prelude.{◌≡◌, false, [], ◌∷◌, replicate, slice_set, take, drop};
ghost use Rattle.mon_types.specs.Shape.{plain};
ghost use Rattle.mon_model.specs.State.{start};
ghost use Rattle.solo_runs.specs.Starts.{at_start};

/// At the start x2 is the stack pointer and x10 the number of the core, which is 0; the other registers are
/// 0, DRAM holds what the image says, the monitor is at its start, satp is Bare, and nothing is translated
/// or touched.
pub fn starts_as_the_image_says()
    ensures context { at_start.contexts.current ≡ record { pc = 0x8000_0100; regs = slice_set (replicate 32 0) 2 0x8000_7000 } }
    ensures words { take 5 (drop 512 at_start.words) ≡ 0 ∷ 5 ∷ 6 ∷ 0 ∷ 0 ∷ [] }
    ensures before { take 512 at_start.words ≡ replicate 512 0 }
    ensures state { at_start.state ≡ start (plain 1) }
    ensures guest { at_start.guest ≡ record { satp = 0; by_line = false; cache = []; touches = [] } }
    ensures log { at_start.log ≡ [] }
    ensures answers { at_start.answers ≡ [] }
{}
