//! Objects and owners in a line.

ghost use Rattle.std.specs.Prelude.{◌≡◌, ◌≤◌, ◌<◌, ◌+◌, ◌*◌, ◌++◌, length, codes};
ghost use Rattle.std.specs.Fmt.{decimal};
ghost use Rattle.std.specs.List.{flat_map};
ghost use Rattle.mon_types.specs.Bits.{has_bit, member};
ghost use Rattle.report.specs.Objects.{measure_text, object_text, owner_text, lettered, members_text, tried_text, enclave_letter, thread_letter, region_letter, cell_letter};

use mon_types::{ObjectId, Owner, Tried};
use text_out::{LINE, Line};

/// A kind's letter and a number.
fn add_lettered(line: &mut Line, letter: &str, n: u8)
    requires one { length letter.now ≡ 1 }
    requires room { length line.old + 21 ≤ LINE }
    ensures text { line.new ≡ line.old ++ lettered letter.now n }
    ensures len { length line.new ≤ length line.old + 21 }
{
    line.text(letter);
    line.number(u64::from(n));
}

/// Adds an object.
#[tactic(auto, unfolding(crate::specs::Objects::object_text))]
pub fn add_object(line: &mut Line, object: ObjectId)
    requires { length line.old + 21 ≤ LINE }
    ensures text { line.new ≡ line.old ++ object_text object }
    ensures len { length line.new ≤ length line.old + 21 }
{
    match object {
        ObjectId::Enclave(e) => add_lettered(line, "e", e),
        ObjectId::Thread(t) => add_lettered(line, "t", t),
        ObjectId::Region(r) => add_lettered(line, "r", r),
        ObjectId::Cell(c) => add_lettered(line, "c", c),
    }
}

/// Adds an owner.
#[tactic(auto, unfolding(crate::specs::Objects::owner_text))]
pub fn add_owner(line: &mut Line, owner: Owner)
    requires { length line.old + 21 ≤ LINE }
    ensures text { line.new ≡ line.old ++ owner_text owner }
    ensures len { length line.new ≤ length line.old + 21 }
{
    match owner {
        Owner::Os => line.text("os"),
        Owner::Enclave(e) => add_lettered(line, "e", e),
    }
}

#[tactic(auto, unfolding(crate::specs::Objects::enclave_letter))]
fn of_enclave() -> &'static str
    ensures text { result.now ≡ enclave_letter }
    ensures len { length result.now ≡ 2 }
{
    " e"
}

#[tactic(auto, unfolding(crate::specs::Objects::thread_letter))]
fn of_thread() -> &'static str
    ensures text { result.now ≡ thread_letter }
    ensures len { length result.now ≡ 2 }
{
    " t"
}

#[tactic(auto, unfolding(crate::specs::Objects::region_letter))]
fn of_region() -> &'static str
    ensures text { result.now ≡ region_letter }
    ensures len { length result.now ≡ 2 }
{
    " r"
}

#[tactic(auto, unfolding(crate::specs::Objects::cell_letter))]
fn of_cell() -> &'static str
    ensures text { result.now ≡ cell_letter }
    ensures len { length result.now ≡ 2 }
{
    " c"
}

/// Whether a number below 64 is in a set.
fn contains(set: u64, i: u64) -> bool
    requires { i < 64 }
    ensures { result ≡ has_bit set i }
{
    (set >> i) % 2 == 1
}

/// A number of a set, after its kind's letter, where it is in the set.
fn add_member(line: &mut Line, letter: &str, set: u64, i: u64)
    requires letter { length letter.now ≡ 2 }
    requires place { i < 64 }
    requires room { length line.old + 4 ≤ LINE }
    ensures text { line.new ≡ line.old ++ flat_map (lettered letter.now) (member set i) }
    ensures len { length line.new ≤ length line.old + 4 }
{
    if contains(set, i) {
        line.text(letter);
        line.small(i);
    }
}

/// The members of a set below `count`.
fn add_members(line: &mut Line, letter: &str, set: u64, count: u64)
    requires letter { length letter.now ≡ 2 }
    requires count { count ≤ 64 }
    requires room { length line.old + 4 * count ≤ LINE }
    ensures text { line.new ≡ line.old ++ members_text letter.now set count }
    ensures len { length line.new ≤ length line.old + 4 * count }
{
    for i in 0..count {
        add_member(line, letter, set, i);
    }
}

/// Adds the objects that a call tried, each after a space.
pub fn add_tried(line: &mut Line, tried: &Tried)
    requires { length line.old + 416 ≤ LINE }
    ensures text { line.new ≡ line.old ++ tried_text tried.now }
    ensures len { length line.new ≤ length line.old + 416 }
{
    add_members(line, of_enclave(), u64::from(tried.enclaves), 8);
    add_members(line, of_thread(), u64::from(tried.threads), 16);
    add_members(line, of_region(), tried.regions, 64);
    add_members(line, of_cell(), u64::from(tried.cells), 16);
}

/// Adds the 32 bytes of a measurement's words, the lowest byte of each first, as 64 hexadecimal digits.
pub fn add_measure(line: &mut Line, words: &[u64; 4])
    requires { length line.old + 64 ≤ LINE }
    ensures text { line.new ≡ line.old ++ measure_text words.now }
    ensures len { length line.new ≡ length line.old + 64 }
{
    for word in words {
        line.hex(&word.to_le_bytes());
    }
}
