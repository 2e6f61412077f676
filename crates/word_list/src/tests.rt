//! Moves on the plain machine of two cores, with their answers worked out by hand.

ghost use Rattle.std.specs.Prelude.{◌≡◌, ◌<◌, IfOk};
ghost use Rattle.mon_types.specs.Shape.{plain};
ghost use Rattle.protocol.specs.declared.action.Action.TheVariants as actions;
ghost use Rattle.protocol.specs.declared.action.Move.TheVariants as moves;
ghost use Rattle.protocol.specs.Moves.{place_of};
ghost use Rattle.protocol.specs.Words.{IsPlaced};

use crate::{Tables, WordList};
use mon_types::{
    Call, Config, Enclave, ObjectId, Owner, Region, Reply, Stage, Thread, ThreadState, Tried,
};
use protocol::{Action, Draft, Move, Outcome};
use std::alloc::{AllocError, Global};
use std::process::Abort;
use std::test::Fail;

const R3: ObjectId = ObjectId::Region(3);

const C0: ObjectId = ObjectId::Cell(0);

const C1: ObjectId = ObjectId::Cell(1);

const E3: ObjectId = ObjectId::Enclave(3);

const E4: ObjectId = ObjectId::Enclave(4);

const E7: ObjectId = ObjectId::Enclave(7);

const T15: ObjectId = ObjectId::Thread(15);

/// The words of the plain machine of two cores, with zeros in DRAM.
fn plain_words(alloc: Global) -> Result<WordList, AllocError>
    ensures { IfOk result (λ l. l.shape ≡ plain 2) }
{
    let config = Config::plain(2);
    let words = WordList::new(alloc, &config, vec![in alloc; 0; 4096]?)?;
    Ok(words)
}

/// Makes a move of a core, whose call has this serial, and compares what it answers.
fn expect(
    rt: &impl Abort,
    words: &mut WordList,
    core: u8,
    serial: u32,
    action: Move,
    outcome: Outcome,
)
    requires machine { words.old.shape ≡ plain 2 }
    requires core { core < 16 }
    requires placed { IsPlaced (plain 2) (place_of action) }
    ensures machine { words.new.shape ≡ plain 2 }
{
    assert!(rt; words.tickets() < 100);
    let answer = words.perform(core, serial, &action);
    assert_eq!(rt; answer, outcome, "answer to {action:?}");
}

/// A Draw of a flush of core 0.
#[tactic(auto, unfolding(protocol::specs::Moves::place_of, protocol::specs::Moves::action_place))]
fn draw(serial: u32) -> Move
    ensures { IsPlaced (plain 2) (place_of result) }
{
    Move::InCall(Action::Draw {
        draft: Draft {
            serial,
            call: Call::Flush,
            page: None,
            reply: Reply::done(),
            tried: Tried {
                enclaves: 0,
                threads: 0,
                regions: 0,
                cells: 1,
            },
        },
    })
}

/// Takes the lock of an object.
fn take(object: ObjectId) -> Move
    ensures { result ≡ moves.InCall (actions.TryLock object) }
{
    Move::InCall(Action::TryLock { object })
}

/// Gives it back.
fn give(object: ObjectId) -> Move
    ensures { result ≡ moves.InCall (actions.Unlock object) }
{
    Move::InCall(Action::Unlock { object })
}

/// Reads a word of an object's row.
fn read(object: ObjectId, at: u8) -> Move
    ensures { result ≡ moves.InCall (actions.Read object at) }
{
    Move::InCall(Action::Read { object, at })
}

/// Writes a word of an object's row.
fn write(object: ObjectId, at: u8, value: u64) -> Move
    ensures { result ≡ moves.InCall (actions.Write object at value) }
{
    Move::InCall(Action::Write { object, at, value })
}

#[test]
#[tactic(auto, unfolding(protocol::specs::Moves::place_of, protocol::specs::Moves::action_place))]
fn a_lock_is_taken_once(rt: HostRuntime) -> Result<(), Fail> {
    let mut words = plain_words(rt.alloc())?;
    let first = Outcome::HeldBy {
        core: 1,
        serial: 16383,
    };
    expect(&rt, &mut words, 1, 16383, take(R3), Outcome::Taken);
    expect(&rt, &mut words, 0, 7, take(R3), first);
    expect(&rt, &mut words, 1, 16384, take(R3), first);
    expect(&rt, &mut words, 0, 7, take(C0), Outcome::Taken);
    expect(&rt, &mut words, 1, 16383, give(R3), Outcome::Done);
    expect(&rt, &mut words, 0, 7, take(R3), Outcome::Taken);
    let second = Outcome::HeldBy { core: 0, serial: 7 };
    expect(&rt, &mut words, 1, 16384, take(R3), second);
    Ok(())
}

#[test]
#[tactic(auto, unfolding(protocol::specs::Moves::place_of, protocol::specs::Moves::action_place, mon_types::specs::Objects::width))]
fn a_row_is_written_and_read(rt: HostRuntime) -> Result<(), Fail> {
    let mut words = plain_words(rt.alloc())?;
    expect(&rt, &mut words, 0, 0, write(E3, 28, 77), Outcome::Done);
    expect(&rt, &mut words, 1, 0, read(E3, 28), Outcome::Word(77));
    expect(&rt, &mut words, 1, 0, read(E3, 27), Outcome::Word(0));
    expect(&rt, &mut words, 1, 0, read(E4, 0), Outcome::Word(0));
    expect(&rt, &mut words, 0, 0, read(R3, 0), Outcome::Word(1));
    expect(&rt, &mut words, 0, 0, read(R3, 1), Outcome::Word(0));
    Ok(())
}

#[test]
#[tactic(auto, unfolding(protocol::specs::Moves::place_of, protocol::specs::Moves::action_place))]
fn tickets_are_drawn_in_turn(rt: HostRuntime) -> Result<(), Fail> {
    let mut words = plain_words(rt.alloc())?;
    expect(&rt, &mut words, 0, 0, draw(0), Outcome::Ticket(1));
    expect(&rt, &mut words, 0, 1, draw(1), Outcome::Ticket(2));
    assert_eq!(rt; words.tickets(), 2);
    Ok(())
}

#[test]
#[tactic(auto, unfolding(protocol::specs::Moves::place_of, protocol::specs::Moves::action_place, mon_types::specs::Objects::width))]
fn a_look_finds_the_own_word(rt: HostRuntime) -> Result<(), Fail> {
    let mut words = plain_words(rt.alloc())?;
    let look = Move::Look {
        region: 3,
        owner: Owner::Os,
    };
    expect(&rt, &mut words, 1, 0, look, Outcome::Word(1));
    expect(&rt, &mut words, 0, 0, write(R3, 0, 2), Outcome::Done);
    expect(&rt, &mut words, 1, 0, look, Outcome::Word(2));
    Ok(())
}

#[test]
#[tactic(auto, unfolding(protocol::specs::Moves::place_of, protocol::specs::Moves::action_place))]
fn a_swap_stores_where_nobody_has_stored(rt: HostRuntime) -> Result<(), Fail> {
    let mut words = plain_words(rt.alloc())?;
    let word = 4095;
    let store = Move::Store { word, value: 7 };
    let swap = Move::Swap {
        word,
        loaded: 7,
        value: 8,
    };
    let again = Outcome::Again {
        loaded: 7,
        found: 8,
    };
    expect(&rt, &mut words, 0, 0, store, Outcome::Done);
    expect(&rt, &mut words, 1, 0, swap, Outcome::Done);
    expect(&rt, &mut words, 0, 0, swap, again);
    expect(&rt, &mut words, 0, 0, Move::Load { word }, Outcome::Word(8));
    let load = Move::Load { word: 0 };
    expect(&rt, &mut words, 0, 0, load, Outcome::Word(0));
    Ok(())
}

#[test]
#[tactic(auto, unfolding(protocol::specs::Moves::place_of, protocol::specs::Moves::action_place, mon_types::specs::Objects::width))]
fn rows_hold_records(rt: HostRuntime) -> Result<(), Fail> {
    let mut words = plain_words(rt.alloc())?;
    // blocked at 9 since 0, a Loading enclave of 4,096 bytes, and a thread of enclave 7
    expect(&rt, &mut words, 0, 0, write(R3, 0, 2), Outcome::Done);
    expect(&rt, &mut words, 0, 0, write(R3, 1, 9), Outcome::Done);
    expect(&rt, &mut words, 0, 0, write(E7, 0, 1), Outcome::Done);
    expect(&rt, &mut words, 0, 0, write(E7, 2, 4096), Outcome::Done);
    expect(&rt, &mut words, 0, 0, write(T15, 0, 8), Outcome::Done);
    expect(&rt, &mut words, 0, 0, write(T15, 1, 64), Outcome::Done);
    expect(&rt, &mut words, 0, 0, write(C1, 0, 5), Outcome::Done);
    let store = Move::Store {
        word: 4095,
        value: 7,
    };
    expect(&rt, &mut words, 0, 0, store, Outcome::Done);
    compare(&rt, words.into_tables());
    Ok(())
}

/// Compares tables with what `rows_hold_records` has written.
fn compare(rt: &impl Abort, tables: Tables) {
    let owner = Owner::Os;
    let owned = Region::Owned { owner, since: 0 };
    let blocked = Region::Blocked {
        owner,
        since: 0,
        at: 9,
    };
    let loading = Enclave {
        stage: Stage::Loading,
        size: 4096,
        ..Enclave::empty()
    };
    let ready = Thread {
        state: ThreadState::Ready { enclave: 7 },
        entry: 64,
        ..Thread::empty()
    };
    let regions = [owned, owned, owned, blocked, owned, owned, owned, owned];
    assert_eq!(rt; tables.regions.as_slice(), regions.as_slice());
    assert_eq!(rt; tables.enclaves.len(), 8);
    assert_eq!(rt; tables.enclaves.as_slice().first(), Some(&Enclave::empty()));
    assert_eq!(rt; tables.enclaves.as_slice().last(), Some(&loading));
    assert_eq!(rt; tables.threads.len(), 16);
    assert_eq!(rt; tables.threads.as_slice().first(), Some(&Thread::empty()));
    assert_eq!(rt; tables.threads.as_slice().last(), Some(&ready));
    assert_eq!(rt; tables.flushed.as_slice(), [0, 5].as_slice());
    assert_eq!(rt; tables.words.len(), 4096);
    assert_eq!(rt; tables.words.as_slice().last(), Some(&7));
}
