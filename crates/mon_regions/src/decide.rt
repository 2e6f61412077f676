//! What the calls on regions answer once their objects are held.

ghost use Rattle.std.specs.Prelude.{◌≡◌, nat_le};
ghost use Rattle.std.specs.List.{list_all};
ghost use Rattle.std.specs.Option.{option_copied};
ghost use Rattle.mon_types.specs.Replies.{done, ok_with_four};
ghost use Rattle.mon_model.specs.RegionCalls.{acts_for, owner_word, block_reply, free_reply, assign_reply, region_info_reply, accept_region_reply};

use mon_types::{Enclave, Mode, OS_WORD, Owner, Region, Reply, Stage};

/// Ok with four words: the state, the owner's word and two tickets.
fn told_reply(state: u64, owner: u64, since: u32, at: u32) -> Reply
    ensures { result ≡ ok_with_four state owner since at }
{
    Reply::ok_with_four(state, owner, u64::from(since), u64::from(at))
}

/// Whether a core in this mode acts for the owner.
fn is_owner(mode: Mode, owner: Owner) -> bool
    ensures { result ≡ acts_for mode owner }
{
    match (mode, owner) {
        (Mode::Os, Owner::Os) => true,
        (Mode::Inside { enclave, .. }, Owner::Enclave(e)) => enclave == e,
        _ => false,
    }
}

/// block, by a core in this mode: AccessDenied where it does not own the region or did not make the
/// offer, InvalidState where the region is Free or Blocked.
pub fn decide_block(mode: Mode, region: &Region) -> Reply
    ensures { result ≡ block_reply mode region.now }
{
    match (*region, mode) {
        (Region::Owned { owner, .. }, _) => {
            if is_owner(mode, owner) {
                Reply::done()
            } else {
                Reply::AccessDenied
            }
        }
        (Region::Offered { .. }, Mode::Os) => Reply::done(),
        (Region::Offered { .. }, Mode::Inside { .. }) => Reply::AccessDenied,
        (Region::Free | Region::Blocked { .. }, _) => Reply::InvalidState,
    }
}

fn have_all_flushed(cells: &[u32], at: u32) -> bool
    ensures { result ≡ list_all (λ ticket. nat_le at ticket) cells.now }
{
    cells.iter().all(|ticket| at <= *ticket)
}

/// free, from all cores' cells: InvalidState where the region is not Blocked, NotFlushed where a core
/// has not flushed since it was.
pub fn decide_free(region: &Region, cells: &[u32]) -> Reply
    ensures { result ≡ free_reply region.now cells.now }
{
    match *region {
        Region::Blocked { at, .. } => {
            if have_all_flushed(cells, at) {
                Reply::done()
            } else {
                Reply::NotFlushed
            }
        }
        _ => Reply::InvalidState,
    }
}

/// assign, to the enclave with this record, or to the OS where there is none: InvalidState where the
/// enclave is Empty or the region is not Free.
pub fn decide_assign(to: Option<&Enclave>, region: &Region) -> Reply
    ensures { result ≡ assign_reply (option_copied to.entry) region.now }
{
    if let Some(enclave) = to
        && enclave.stage == Stage::Empty
    {
        return Reply::InvalidState;
    }
    match *region {
        Region::Free => Reply::done(),
        _ => Reply::InvalidState,
    }
}

/// flush, which has no refusal here.
pub fn decide_flush() -> Reply
    ensures { result ≡ done }
{
    Reply::done()
}

fn word_of(owner: Owner) -> u64
    ensures { result ≡ owner_word owner }
{
    match owner {
        Owner::Os => OS_WORD,
        Owner::Enclave(e) => u64::from(e),
    }
}

/// region_info, which has no refusal here. The words are the state (0 Free, 1 Owned, 2 Blocked, 3
/// Offered), the owner (`OS_WORD` or an enclave slot), since and at.
pub fn decide_region_info(region: &Region) -> Reply
    ensures { result ≡ region_info_reply region.now }
{
    match *region {
        Region::Free => told_reply(0, OS_WORD, 0, 0),
        Region::Owned { owner, since } => told_reply(1, word_of(owner), since, 0),
        Region::Blocked { owner, since, at } => told_reply(2, word_of(owner), since, at),
        Region::Offered { to, at } => told_reply(3, u64::from(to), 0, at),
    }
}

/// accept_region, by the enclave in slot `own`: InvalidState where the region is not Offered,
/// AccessDenied where it is offered to another slot.
pub fn decide_accept_region(own: u8, region: &Region) -> Reply
    ensures { result ≡ accept_region_reply own region.now }
{
    match *region {
        Region::Offered { to, .. } => {
            if own == to {
                Reply::done()
            } else {
                Reply::AccessDenied
            }
        }
        _ => Reply::InvalidState,
    }
}
