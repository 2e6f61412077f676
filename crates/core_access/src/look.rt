//! Looks at the own-word of a region.

ghost use Rattle.std.specs.Prelude.{◌≡◌};
ghost use Rattle.core_access.specs.Looks.{is_owner, owned_since, since_in_word};

use mon_types::{Owner, Region, unpack_own};

/// Whether two owners are one.
fn is_owner(one: Owner, other: Owner) -> bool
    ensures { result ≡ is_owner one other }
{
    match (one, other) {
        (Owner::Os, Owner::Os) => true,
        (Owner::Enclave(e), Owner::Enclave(f)) => e == f,
        _ => false,
    }
}

/// Since when a region is Owned by the permitted owner; None where it is not. A look at it is good exactly where
/// there is a ticket.
pub fn owned_since(permitted: Owner, region: &Region) -> Option<u32>
    ensures { result ≡ owned_since permitted region.now }
{
    match *region {
        Region::Owned { owner, since } if is_owner(permitted, owner) => Some(since),
        _ => None,
    }
}

/// The same of the region's own-word.
pub fn since_in_word(permitted: Owner, word: u64) -> Option<u32>
    ensures { result ≡ since_in_word permitted word }
{
    let region = unpack_own(word, 0)?;
    owned_since(permitted, &region)
}
