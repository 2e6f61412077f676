//! What an Ok does to the core.

ghost use Rattle.std.specs.Prelude.{◌≡◌};
ghost use Rattle.mon_calls.specs.OnCore.{core_change, IsChange};

use core_context::After;
use lock_plan::Held;
use mon_types::Call;

/// What a call that `decide` answered with Ok does to the core that makes it, from the records of all that
/// it tries, before `apply`.
pub fn core_change(call: &Call, held: &Held) -> After
    ensures by_records { result ≡ core_change call.now held.now }
    ensures in_states { IsChange call.now held.now result }
{
    change_by_records(call, held)
}

fn change_by_records(call: &Call, held: &Held) -> After
    ensures { result ≡ core_change call.now held.now }
{
    match *call {
        Call::Flush | Call::SetSatp { .. } => After::Cleared,
        Call::Enter { .. } => After::entering(&held.first_enclave(), &held.first_thread()),
        Call::Exit | Call::Aex { .. } => After::Left,
        Call::Restore => {
            let saved = held.first_thread().saved;
            After::Restored { saved }
        }
        _ => After::Nothing,
    }
}
