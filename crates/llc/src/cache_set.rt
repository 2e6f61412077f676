//! The lines of one set.

ghost use Rattle.std.specs.Prelude.{◌≡◌, ◌≤◌, ◌<◌, [], length};
ghost use Rattle.llc.specs.Sets.{has_tag, touched, PutsFirst};

use std::marker::Model;

/// The most lines that a set has.
pub const MOST_WAYS: u8 = 16;

/// The tags of the lines that a set holds, the latest used first. Contracts see the list of the tags.
#[derive(Debug, Drop)]
pub struct CacheSet {
    tags: [u32; MOST_WAYS as usize],
    len: usize,
}

impl Model for CacheSet {
    ghost use Rattle.std.specs.Prelude.{◌≤◌, List, ℕ, take};

    ghost Value = { List ℕ };

    ghost view = { λ s. take s.len s.tags };

    ghost invariant = { λ s. s.len ≤ 16 };
}

impl CacheSet {
    /// A set that holds nothing.
    pub fn new() -> CacheSet
        ensures { result ≡ [] }
    {
        CacheSet {
            tags: [0; MOST_WAYS as usize],
            len: 0,
        }
    }

    /// An access to the line of a tag, in a set of so many lines, 16 at most; whether the set held it.
    pub fn touch(&mut self, tag: u32, ways: u8) -> bool
        requires { ways ≤ 16 }
        ensures hit { result ≡ has_tag tag self.old }
        ensures tags { length self.old ≤ ways → self.new ≡ touched ways tag self.old }
    {
        match put_first(&mut self.tags[..self.len], tag) {
            None => true,
            Some(pushed_out) => {
                if self.len < usize::from(ways) {
                    self.tags[self.len] = pushed_out;
                    self.len += 1;
                }
                false
            }
        }
    }
}

/// Puts a tag first and moves the others back, up to where the tag stood. Where it stood nowhere, the last
/// one is pushed out.
fn put_first(tags: &mut [u32], tag: u32) -> Option<u32>
    ensures { PutsFirst tag tags.old tags.new result }
{
    let mut moved = tag;
    for place in tags.iter_mut() {
        let here = *place;
        *place = moved;
        if here == tag {
            return None;
        }
        moved = here;
    }
    Some(moved)
}
