//! What a move answers and leaves, by the word that it finds.

ghost use Rattle.std.specs.Prelude.{◌≡◌, ◌==◌, if◌then◌else◌};
ghost use Rattle.protocol.specs.Moves.{try_outcome, swap_outcome, action_outcome, outcome_of, try_leaves, action_leaves, leaves};
ghost use Rattle.word_list.specs.Finds.{IsLockWord, ActionFinds, Finds};

use mon_types::unpack_lock;
use protocol::{Action, Move, Outcome};

/// Of a TryLock: whose the lock word is that it finds.
fn try_outcome(found: u64) -> Outcome
    requires { IsLockWord found }
    ensures { result ≡ try_outcome found }
{
    match unpack_lock(found) {
        None => Outcome::Taken,
        Some((core, serial)) => Outcome::HeldBy { core, serial },
    }
}

/// Of a Swap: whether it finds the word that was loaded.
#[tactic(auto, unfolding(protocol::specs::Moves::swap_outcome))]
fn swap_outcome(loaded: u64, found: u64) -> Outcome
    ensures { result ≡ swap_outcome loaded found }
{
    if found == loaded {
        Outcome::Done
    } else {
        Outcome::Again { loaded, found }
    }
}

/// Of a move of a call.
#[tactic(auto, unfolding(protocol::specs::Moves::action_outcome))]
fn action_outcome(action: &Action, found: u64) -> Outcome
    requires { ActionFinds action.now found }
    ensures { result ≡ action_outcome action.now found }
{
    match *action {
        Action::TryLock { .. } => try_outcome(found),
        Action::Read { .. } | Action::Load { .. } => Outcome::Word(found),
        Action::Draw { .. } => Outcome::Ticket((found + 1) as u32),
        Action::Write { .. } | Action::Unlock { .. } | Action::Store { .. } => Outcome::Done,
    }
}

/// What any move answers by the word that it finds.
#[tactic(auto, unfolding(protocol::specs::Moves::outcome_of))]
pub(crate) fn outcome_of(action: &Move, found: u64) -> Outcome
    requires { Finds action.now found }
    ensures { result ≡ outcome_of action.now found }
{
    match *action {
        Move::InCall(action) => action_outcome(&action, found),
        Move::Look { .. } | Move::Load { .. } => Outcome::Word(found),
        Move::Store { .. } | Move::Stop { .. } => Outcome::Done,
        Move::Swap { loaded, .. } => swap_outcome(loaded, found),
    }
}

/// What a TryLock leaves: the lock word of the call where the lock was free.
fn try_leaves(mine: u64, found: u64) -> u64
    ensures { result ≡ try_leaves mine found }
{
    if found == 0 { mine } else { found }
}

/// What a move of a call leaves, where `mine` is the lock word of the call.
#[tactic(auto, unfolding(protocol::specs::Moves::action_leaves))]
fn action_leaves(mine: u64, action: &Action, found: u64) -> u64
    requires { ActionFinds action.now found }
    ensures { result ≡ action_leaves mine action.now found }
{
    match *action {
        Action::TryLock { .. } => try_leaves(mine, found),
        Action::Read { .. } | Action::Load { .. } => found,
        Action::Write { value, .. } | Action::Store { value, .. } => value,
        Action::Draw { .. } => found + 1,
        Action::Unlock { .. } => 0,
    }
}

/// What a Swap leaves: the value where the word is the one that was loaded.
fn swap_leaves(loaded: u64, value: u64, found: u64) -> u64
    ensures { result ≡ (if found == loaded then value else found) }
{
    if found == loaded { value } else { found }
}

/// What any move leaves where it finds this word.
#[tactic(auto, unfolding(protocol::specs::Moves::leaves))]
pub(crate) fn leaves(mine: u64, action: &Move, found: u64) -> u64
    requires { Finds action.now found }
    ensures { result ≡ leaves mine action.now found }
{
    match *action {
        Move::InCall(action) => action_leaves(mine, &action, found),
        Move::Look { .. } | Move::Load { .. } | Move::Stop { .. } => found,
        Move::Store { value, .. } => value,
        Move::Swap { loaded, value, .. } => swap_leaves(loaded, value, found),
    }
}
