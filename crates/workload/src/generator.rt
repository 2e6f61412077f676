//! The generator of a core's lines.

ghost use Rattle.std.specs.Prelude.{◌≡◌, ◌<◌, ◌≤◌};
ghost use Rattle.workload.specs.Workload.{first_state, next_state, kind_of, region_of, line_of, line_at};

use mon_types::{Call, Line, OS_WORD, PAGE_BYTES};

/// What the state is multiplied by.
const MULTIPLIER: u64 = 6364136223846793005;

/// What is added to it then.
const INCREMENT: u64 = 1442695040888963407;

/// The first address of DRAM; page r, which is region r of the plain machine, begins r pages behind it.
const DRAM_START: u64 = 0x8000_0000;

/// A linear congruential generator, whose upper bits say what a line is.
#[derive(Drop)]
pub(crate) struct Generator {
    state: u64,
}

impl Generator {
    /// Before the first line of a core.
    pub fn begin(n: u64, core: u8) -> Generator
        ensures { result.state ≡ first_state n core }
    {
        Generator {
            state: n.wrapping_add(u64::from(core)),
        }
    }

    /// Goes on to the next state, and gives its line.
    pub fn next_line(&mut self) -> Line
        ensures state { self.new.state ≡ next_state self.old.state }
        ensures line { result ≡ line_at (next_state self.old.state) }
    {
        self.state = next_state(self.state);
        line_of(kind_of(self.state), region_of(self.state))
    }
}

/// The state behind this one.
#[tactic(auto, unfolding(crate::specs::Workload::next_state))]
fn next_state(state: u64) -> u64
    ensures { result ≡ next_state state }
{
    state.wrapping_mul(MULTIPLIER).wrapping_add(INCREMENT)
}

/// The kind of line that a state gives.
fn kind_of(state: u64) -> u64
    ensures { result ≡ kind_of state }
{
    (state >> 33) % 8
}

/// The region that its line is about.
fn region_of(state: u64) -> u64
    ensures value { result ≡ region_of state }
    ensures within { result ≤ 7 }
{
    1 + (state >> 40) % 7
}

/// The line of a kind about a region.
#[tactic(auto, unfolding(crate::specs::Workload::line_of))]
fn line_of(kind: u64, r: u64) -> Line
    requires { r ≤ 7 }
    ensures { result ≡ line_of kind r }
{
    match kind {
        0 | 1 => Line::Make(Call::Block { r }),
        2 | 3 => Line::Make(Call::Free { r }),
        4 => Line::Make(Call::Assign { r, to: OS_WORD }),
        5 => Line::Make(Call::Flush),
        6 => Line::Make(Call::RegionInfo { r }),
        _ => Line::LoadWord(DRAM_START + PAGE_BYTES * r),
    }
}
