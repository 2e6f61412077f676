//! Cores followed step by step, with values worked out by hand.

ghost use Rattle.std.specs.Prelude.{◌≡◌, ◌≤◌, ℕ, true, [], ◌∷◌, length, replicate, IfOk};
ghost use Rattle.protocol.specs.Moves.{outcome_of};
ghost use Rattle.mon_types.specs.Shape.{plain};
ghost use Rattle.core_machine.specs.Start.{AreLines, IsGiven};

use crate::{CoreMachine, Machine, Step};
use hist::Why;
use mon_types::{
    Call, Config, Image, Items, Line, ObjectId, Reply, Script, Start, TICK_CAUSE, Tried,
};
use protocol::{Action, Draft, Move, Outcome};
use std::alloc::{AllocError, Global};
use std::process::Abort;

/// Whether the outcome is one of a call's move.
fn fits(action: &Action, outcome: &Outcome) -> bool
    ensures { result ≡ true → (word : ℕ) × (outcome.now ≡ outcome_of (Move.InCall action.now) word) }
{
    match *action {
        Action::TryLock { .. } => match *outcome {
            Outcome::Taken => true,
            Outcome::HeldBy { core, .. } => core < 16,
            _ => false,
        },
        Action::Read { .. } => match *outcome {
            Outcome::Word(_) => true,
            _ => false,
        },
        Action::Draw { .. } => match *outcome {
            Outcome::Ticket(ticket) => ticket > 0,
            _ => false,
        },
        Action::Write { .. } => match *outcome {
            Outcome::Done => true,
            _ => false,
        },
        Action::Unlock { .. } => match *outcome {
            Outcome::Done => true,
            _ => false,
        },
        // No call that the tests make loads or stores words.
        _ => false,
    }
}

/// The next step is this move of a call, and has this outcome.
fn makes(rt: &impl Abort, core: &mut CoreMachine, action: Action, outcome: Outcome) {
    match core.next() {
        Some(Step::Move(Move::InCall(next))) => {
            assert_eq!(rt; next, action);
            if fits(&next, &outcome) {
                core.took(&outcome);
            } else {
                panic!(rt; "it has no such outcome");
            }
        }
        _ => panic!(rt; "the next step is no move of a call"),
    }
}

/// The next step is a stop.
fn stops(rt: &impl Abort, core: &mut CoreMachine, line: u32, why: Why) {
    let step = core.next();
    assert_eq!(rt; step, Some(Step::Stop { line, why }));
}

/// The script is over.
fn ends(rt: &impl Abort, core: &mut CoreMachine) {
    let step = core.next();
    assert!(rt; step.is_none());
    assert!(rt; core.calling().is_none());
}

/// The serial of the call under way.
fn calls(rt: &impl Abort, core: &CoreMachine, serial: Option<u32>) {
    assert_eq!(rt; core.calling(), serial);
}

/// The lock of an object is taken, and these words stand in its row.
fn takes(rt: &impl Abort, core: &mut CoreMachine, object: ObjectId, words: &[u64]) {
    makes(rt, core, Action::TryLock { object }, Outcome::Taken);
    let mut at = 0;
    for word in words {
        makes(rt, core, Action::Read { object, at }, Outcome::Word(*word));
        at = at.wrapping_add(1);
    }
}

const R1: ObjectId = ObjectId::Region(1);

const E0: ObjectId = ObjectId::Enclave(0);

const T0: ObjectId = ObjectId::Thread(0);

/// No object.
const NOTHING: Tried = Tried {
    enclaves: 0,
    threads: 0,
    regions: 0,
    cells: 0,
};

/// The Draw of a call.
fn draw(serial: u32, call: Call, reply: Reply, tried: Tried) -> Action {
    Action::Draw {
        draft: Draft {
            serial,
            call,
            page: None,
            reply,
            tried,
        },
    }
}

/// So many lines `exit`.
fn exits(alloc: Global, count: usize) -> Result<Vec<Line>, AllocError>
    ensures { IfOk result (λ lines. lines.items ≡ replicate count (Line.Make Call.Exit)) }
{
    vec![in alloc; Line::Make(Call::Exit); count]
}

/// The machine of the plain image with two cores, the second of which has these lines.
fn machine(alloc: Global, lines: Vec<Line>) -> Result<Machine, AllocError>
    requires { AreLines lines.items }
{
    let mut starts = Items::new(alloc);
    starts.push(Start { pc: 64, sp: 0 })?;
    starts.push(Start { pc: 64, sp: 0 })?;
    let image = Image {
        config: Config::plain(2),
        starts,
        segments: Items::new(alloc),
    };
    let mut cores = Items::new(alloc);
    cores.push(Items::new(alloc))?;
    cores.push(Items::from_vec(lines))?;
    Machine::new(alloc, &image, Script { cores })
}

/// Its second core.
fn second(rt: &impl Abort, mut machine: Machine) -> CoreMachine {
    match machine.cores.into_vec().pop() {
        Some(core) => core,
        None => panic!(rt; "no core"),
    }
}

#[test]
fn calls_with_their_serials(rt: HostRuntime) -> Result<(), AllocError> {
    let block = Call::Block { r: 1 };
    let lines = vec![in rt.alloc();
        Line::SetReg(5, 77),
        Line::Make(block),
        Line::Tick,
        Line::SetPc(128),
        Line::Make(Call::Exit),
    ]?;
    let mut core = second(&rt, machine(rt.alloc(), lines)?);
    calls(&rt, &core, None);
    // Owned by the OS since ticket 7
    takes(&rt, &mut core, R1, &[1 + 64 * 7, 0]);
    calls(&rt, &core, Some(0));
    makes(
        &rt,
        &mut core,
        Action::Write {
            object: R1,
            at: 0,
            value: 2 + 64 * 7,
        },
        Outcome::Done,
    );
    let tried = Tried {
        regions: 2,
        ..NOTHING
    };
    makes(
        &rt,
        &mut core,
        draw(0, block, Reply::done(), tried),
        Outcome::Ticket(21),
    );
    makes(
        &rt,
        &mut core,
        Action::Write {
            object: R1,
            at: 1,
            value: 21,
        },
        Outcome::Done,
    );
    calls(&rt, &core, Some(0));
    makes(&rt, &mut core, Action::Unlock { object: R1 }, Outcome::Done);
    calls(&rt, &core, None);
    // The OS makes no exit.
    makes(
        &rt,
        &mut core,
        draw(1, Call::Exit, Reply::AccessDenied, NOTHING),
        Outcome::Ticket(22),
    );
    ends(&rt, &mut core);
    ends(&rt, &mut core);
    Ok(())
}

/// The row of an enclave that is Initialized, with one thread.
const INITIALIZED: [u64; 11] = [2, 4096, 8192, 2, 2, 3, 1, 0, 0, 0, 0];

/// The registers that a thread has at its entry, saved with the cause of a tick.
fn ticked() -> Call {
    let mut saved = [0; 33];
    saved[0] = 4096;
    saved[2] = 8192;
    saved[32] = TICK_CAUSE;
    Call::Aex { saved }
}

/// The thread of slot 0 is entered by core 1.
fn enters(rt: &impl Abort, core: &mut CoreMachine) {
    let tried = Tried {
        enclaves: 1,
        threads: 1,
        ..NOTHING
    };
    takes(rt, core, E0, &INITIALIZED);
    reads_zeros(rt, core, E0, 11, 29);
    // Ready, with its entry and its stack pointer
    takes(rt, core, T0, &[1, 4096, 8192, 0]);
    reads_zeros(rt, core, T0, 4, 37);
    makes(
        rt,
        core,
        draw(0, Call::Enter { e: 0, t: 0 }, Reply::done(), tried),
        Outcome::Ticket(31),
    );
    makes(
        rt,
        core,
        Action::Write {
            object: T0,
            at: 0,
            value: 9,
        },
        Outcome::Done,
    );
    makes(rt, core, Action::Unlock { object: T0 }, Outcome::Done);
    makes(rt, core, Action::Unlock { object: E0 }, Outcome::Done);
}

/// Zeros stand in a row from one word up to another.
fn reads_zeros(rt: &impl Abort, core: &mut CoreMachine, object: ObjectId, from: u8, to: u8) {
    for at in from..to {
        makes(rt, core, Action::Read { object, at }, Outcome::Word(0));
    }
}

/// The exit is tried, and meets a held lock.
fn exit_meets(rt: &impl Abort, core: &mut CoreMachine, serial: u32) {
    let reply = Reply::ConcurrentCall {
        lock: T0,
        holder: 0,
        serial: 4,
    };
    let tried = Tried {
        threads: 1,
        ..NOTHING
    };
    makes(
        rt,
        core,
        Action::TryLock { object: T0 },
        Outcome::HeldBy { core: 0, serial: 4 },
    );
    makes(
        rt,
        core,
        draw(serial, ticked(), reply, tried),
        Outcome::Ticket(40),
    );
}

/// The exit is tried, and is Ok at ticket 50.
fn exit_leaves(rt: &impl Abort, core: &mut CoreMachine, serial: u32) {
    let tried = Tried {
        threads: 1,
        ..NOTHING
    };
    // Running
    takes(rt, core, T0, &[9, 4096, 8192, 0]);
    reads_zeros(rt, core, T0, 4, 37);
    makes(
        rt,
        core,
        draw(serial, ticked(), Reply::done(), tried),
        Outcome::Ticket(50),
    );
    for (at, value) in [(0, 1), (3, 50), (4, 4096), (6, 8192), (36, TICK_CAUSE)] {
        makes(
            rt,
            core,
            Action::Write {
                object: T0,
                at,
                value,
            },
            Outcome::Done,
        );
    }
    makes(rt, core, Action::Unlock { object: T0 }, Outcome::Done);
}

#[test]
fn an_exit_is_tried_again_before_each_line(rt: HostRuntime) -> Result<(), AllocError> {
    let info = Call::RegionInfo { r: 70 };
    let lines = vec![in rt.alloc();
        Line::Make(Call::Enter { e: 0, t: 0 }),
        Line::Tick,
        Line::SetReg(5, 1),
        Line::Tick,
        Line::Make(info),
    ]?;
    let mut core = second(&rt, machine(rt.alloc(), lines)?);
    enters(&rt, &mut core);
    exit_meets(&rt, &mut core, 1);
    exit_meets(&rt, &mut core, 2);
    // The second tick makes no further try.
    exit_meets(&rt, &mut core, 3);
    exit_leaves(&rt, &mut core, 4);
    calls(&rt, &core, None);
    makes(
        &rt,
        &mut core,
        draw(5, info, Reply::InvalidValue, NOTHING),
        Outcome::Ticket(60),
    );
    ends(&rt, &mut core);
    Ok(())
}

#[test]
fn a_limit_where_fewer_than_80_events_are_left(rt: HostRuntime) -> Result<(), AllocError> {
    let lines = exits(rt.alloc(), 16306)?;
    let mut core = second(&rt, machine(rt.alloc(), lines)?);
    for serial in 0..16305 {
        makes(
            &rt,
            &mut core,
            draw(serial, Call::Exit, Reply::AccessDenied, NOTHING),
            Outcome::Ticket(9),
        );
    }
    stops(&rt, &mut core, 16306, Why::Limit);
    ends(&rt, &mut core);
    Ok(())
}
