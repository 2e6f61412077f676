//! Own-words that are written before the Draw.

ghost use Rattle.std.specs.Prelude.{◌≡◌, ◌≤◌, ◌<◌, List, ℕ, None, drop, length, slice_index_or};
ghost use Rattle.mon_types.specs.declared.object.ObjectId.{ObjectId};
ghost use Rattle.mon_types.specs.Owns.{RegionNamesSlot};
ghost use Rattle.mon_types.specs.declared.region.Region.TheVariants as regions;
ghost use Rattle.mon_model.specs.RegionCalls.{blocked};
ghost use Rattle.protocol.specs.CallTree.{Tree};
ghost use Rattle.call_machine.specs.Named.{RegionsAreNamed};
ghost use Rattle.call_machine.specs.Rest.{early_own, early_rest};

use mon_types::{Call, Owner, Region, pack_own};

/// A region that is withdrawn by a block, but for the ticket, which is not in its own-word.
fn blocked(region: Region) -> Region
    ensures { result ≡ blocked region 0 }
{
    match region {
        Region::Offered { to, at } => Region::Blocked {
            owner: Owner::Enclave(to),
            since: at,
            at: 0,
        },
        region => region.withdrawn(0),
    }
}

/// The own-word with which a call withdraws a region that it holds before its Draw; None where it does not.
#[tactic(auto, unfolding(crate::specs::Rest::early_own))]
pub fn early_own(call: &Call, region: &Region) -> Option<u64>
    requires { RegionNamesSlot region.now }
    ensures { result ≡ early_own call.now region.now }
{
    match *call {
        Call::Block { .. } => Some(pack_own(&blocked(*region))),
        Call::Delete { .. } => match region {
            Region::Owned { .. } => Some(pack_own(&region.withdrawn(0))),
            _ => None,
        },
        _ => None,
    }
}

/// The place of the first of these regions from one on that the call withdraws, or the end.
pub fn next_early(call: &Call, items: &[(u8, Region)], from: usize) -> usize
    requires named { RegionsAreNamed items.now }
    requires start { from ≤ length items.now }
    ensures on { from ≤ result }
    ensures end { result ≤ length items.now }
    ensures found { result < length items.now → early_own call.now (slice_index_or items.now result (0, regions.Free)).1 ≡ None → ⊥ }
    ensures skips { (os : List ObjectId) (stood : List ℕ) (next : List ℕ → Tree) → early_rest call.now os (drop from items.now) stood next ≡ early_rest call.now os (drop result items.now) stood next }
{
    let mut at = from;
    while at < items.len() && early_own(call, &items[at].1).is_none() {
        at += 1;
    }
    at
}
