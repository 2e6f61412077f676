//! Regions of memory and who owns them.

ghost use Rattle.std.specs.Prelude.{◌≡◌, ◌≤◌, Some, IfSome, [], ◌∷◌};
ghost use Rattle.mon_types.specs.declared.region.Owner.{Owner};
ghost use Rattle.mon_types.specs.declared.region.Region.{Region};
ghost use Rattle.mon_types.specs.Owns.{IsOwner, RegionNamesSlot, IsRegionRow, owner_code, own_word, at_word, owner_from, region_from, region_or_free, region_parts, withdrawn};

use crate::words::u32_of;

/// The word that names the OS in arguments and replies.
pub const OS_WORD: u64 = 18446744073709551615;

/// Who owns a region: the OS, or the enclave in this slot (0 to 7).
#[derive(Clone, Copy, Debug, PartialEq, Eq)]
pub enum Owner {
    Os,
    Enclave(u8),
}

/// What a region of memory is. `since` and `at` are tickets.
#[derive(Clone, Copy, Debug, Default, PartialEq, Eq)]
pub enum Region {
    /// Nobody's; its words are zeros.
    #[default]
    Free,
    /// The owner's since ticket `since`.
    Owned { owner: Owner, since: u32 },
    /// Withdrawn from its owner at ticket `at`; old translations may still lead to it.
    Blocked { owner: Owner, since: u32, at: u32 },
    /// Offered by the OS at ticket `at` to the enclave in slot `to`, which has not accepted it yet.
    Offered { to: u8, at: u32 },
}

impl Region {
    /// The region once it is withdrawn from its owner at this ticket: Blocked where it was Owned.
    pub fn withdrawn(self, ticket: u32) -> Region
        ensures { result ≡ withdrawn self ticket }
    {
        match self {
            Region::Owned { owner, since } => Region::Blocked {
                owner,
                since,
                at: ticket,
            },
            other => other,
        }
    }
}

/// 0 for the OS, else one more than the enclave's slot.
fn owner_word(owner: Owner) -> u64
    requires { IsOwner owner }
    ensures code { result ≡ owner_code owner }
    ensures small { result ≤ 8 }
{
    match owner {
        Owner::Os => 0,
        Owner::Enclave(e) => 1 + u64::from(e),
    }
}

/// Whom a code names: 1 to 8 the enclave slots from 0 on, and the OS for any other code.
#[tactic(auto, unfolding(crate::specs::Owns::owner_from))]
fn owner_of(code: u64) -> Owner
    ensures { result ≡ owner_from code }
{
    match code {
        1..=8 => Owner::Enclave((code - 1) as u8),
        _ => Owner::Os,
    }
}

/// The own-word of a region, the first word of its row, where the enclave that it names, if any, is
/// below 8.
pub fn pack_own(region: &Region) -> u64
    requires { RegionNamesSlot region.now }
    ensures { result ≡ own_word region.now }
{
    match *region {
        Region::Free => 0,
        Region::Owned { owner, since } => 1 + 4 * owner_word(owner) + 64 * u64::from(since),
        Region::Blocked { owner, since, .. } => 2 + 4 * owner_word(owner) + 64 * u64::from(since),
        Region::Offered { to, at } => 3 + 4 * (1 + u64::from(to)) + 64 * u64::from(at),
    }
}

/// The second word of a region's row: the ticket at which it was blocked, or 0 where it is not Blocked.
pub fn pack_at(region: &Region) -> u64
    ensures { result ≡ at_word region.now }
{
    match *region {
        Region::Blocked { at, .. } => u64::from(at),
        _ => 0,
    }
}

/// The region whose row these two words are; some region where they are no region's row.
#[tactic(auto, unfolding(crate::specs::Owns::region_parts, crate::specs::Owns::region_by))]
fn candidate(word: u64, at: u64) -> Region
    ensures { result ≡ region_parts (word ∷ at ∷ []) }
{
    let since = u32_of(word / 64);
    let at = u32_of(at);
    match (word % 4, owner_of(word / 4 % 16)) {
        (1, owner) => Region::Owned { owner, since },
        (2, owner) => Region::Blocked { owner, since, at },
        (3, Owner::Enclave(to)) => Region::Offered { to, at: since },
        _ => Region::Free,
    }
}

/// The region whose row these two words are; None exactly where they are no region's row.
pub fn unpack_own(word: u64, at: u64) -> Option<Region>
    ensures found { IfSome result (λ region. IsRegionRow word at region) }
    ensures only { (region : Region) → IsRegionRow word at region → result ≡ Some region }
    ensures read { region_or_free result ≡ region_from (word ∷ at ∷ []) }
{
    let region = candidate(word, at);
    if pack_own(&region) == word && pack_at(&region) == at {
        Some(region)
    } else {
        None
    }
}
