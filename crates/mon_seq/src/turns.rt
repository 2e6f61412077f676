//! Lists of calls and skipped tickets.

ghost use Rattle.std.specs.Prelude.{◌≡◌, ◌+◌, ◌<◌, ◌≤◌, ◌-◌, ◌^◌, length, All};
ghost use Rattle.mon_types.specs.Shape.{Shape};
ghost use Rattle.mon_model.specs.State.{start};
ghost use Rattle.mon_model.specs.Measured.{IsMeasured};
ghost use Rattle.mon_seq.specs.Turns.{IsTurn, then_turn, then_turns, answers};

use crate::monitor::Monitor;
use mon_types::Call;

/// What spends a ticket: a call by a core, with the digest of the page that a load_page reads; or a
/// call that changes nothing here, as one that met a held lock.
#[derive(Clone, Copy, Debug, PartialEq, Eq)]
pub enum Turn {
    Call {
        core: u8,
        call: Call,
        digest: [u8; 32],
    },
    Skip,
}

/// Takes the turns one after the other: the monitor is then what folding the single steps over the list
/// gives. Where it was at the start of a machine, each enclave slot that is not Empty has the
/// measurement of its items in these calls.
pub fn take_turns(monitor: &mut Monitor, turns: &[Turn])
    requires turns { All (IsTurn monitor.old.state.shape) turns.now }
    requires tickets { monitor.old.ticket + length turns.now < 2 ^ 32 }
    ensures after { monitor.new ≡ then_turns monitor.old turns.now }
    ensures measured { (shape : Shape) → monitor.old.state ≡ start shape → IsMeasured (answers monitor.old turns.now) monitor.new.state }
{
    for turn in turns {
        take_turn(monitor, turn);
    }
}

fn take_turn(monitor: &mut Monitor, turn: &Turn)
    requires turn { IsTurn monitor.old.state.shape turn.now }
    requires ticket { monitor.old.ticket < 2 ^ 32 - 1 }
    ensures turn { monitor.new ≡ then_turn monitor.old turn.now }
    ensures machine { monitor.new.state.shape ≡ monitor.old.state.shape }
{
    match turn {
        Turn::Call { core, call, digest } => {
            let _ = monitor.call(*core, call, digest);
        }
        Turn::Skip => monitor.skip(),
    }
}
