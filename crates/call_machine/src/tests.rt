//! Calls followed move by move, with values worked out by hand.

ghost use Rattle.std.specs.Prelude.{◌≡◌, ℕ, true};
ghost use Rattle.protocol.specs.Moves.{action_outcome};

use crate::CallMachine;
use core_context::After;
use hist::PageInput;
use mon_types::{Call, Config, Mode, ObjectId, Reply, Tried};
use protocol::{Action, Draft, Outcome};
use std::process::Abort;

// ---- moves

/// A move with its outcome.
type Made = (Action, Outcome);

/// Whether the outcome is one of the action.
fn fits(action: &Action, outcome: &Outcome) -> bool
    ensures { result ≡ true → (word : ℕ) × (outcome.now ≡ action_outcome action.now word) }
{
    match *action {
        Action::TryLock { .. } => match *outcome {
            Outcome::Taken => true,
            Outcome::HeldBy { core, .. } => core < 16,
            _ => false,
        },
        Action::Read { .. } => match *outcome {
            Outcome::Word(_) => true,
            _ => false,
        },
        Action::Load { .. } => match *outcome {
            Outcome::Word(_) => true,
            _ => false,
        },
        Action::Draw { .. } => match *outcome {
            Outcome::Ticket(ticket) => ticket > 0,
            _ => false,
        },
        Action::Write { .. } => match *outcome {
            Outcome::Done => true,
            _ => false,
        },
        Action::Unlock { .. } => match *outcome {
            Outcome::Done => true,
            _ => false,
        },
        Action::Store { .. } => match *outcome {
            Outcome::Done => true,
            _ => false,
        },
    }
}

/// The next move is this one, and has this outcome.
fn makes(rt: &impl Abort, machine: &mut CallMachine, made: &Made) {
    assert!(rt; machine.done().is_none());
    let next = machine.next();
    assert_eq!(rt; next, made.0);
    assert!(rt; fits(&next, &made.1));
    machine.took(&made.1);
}

/// The next moves are these.
fn follows(rt: &impl Abort, machine: &mut CallMachine, moves: &[Made]) {
    for made in moves {
        makes(rt, machine, made);
    }
}

/// The lock of an object is taken, and these words stand in its row.
fn takes(rt: &impl Abort, machine: &mut CallMachine, object: ObjectId, words: &[u64]) {
    makes(rt, machine, &(Action::TryLock { object }, Outcome::Taken));
    let mut at = 0u8;
    for word in words {
        makes(
            rt,
            machine,
            &(Action::Read { object, at }, Outcome::Word(*word)),
        );
        at = at.wrapping_add(1);
    }
}

/// The call is over, after so many moves.
fn ends(rt: &impl Abort, machine: &CallMachine, reply: Reply, after: After, made: u32) {
    assert_eq!(rt; machine.done(), Some((reply, after)));
    assert_eq!(rt; machine.made(), made);
}

/// A word of a row is written.
fn writes(object: ObjectId, at: u8, value: u64) -> Made {
    (Action::Write { object, at, value }, Outcome::Done)
}

/// A lock is given back.
fn gives(object: ObjectId) -> Made {
    (Action::Unlock { object }, Outcome::Done)
}

/// A word of DRAM is loaded.
fn loads(word: u32, found: u64) -> Made {
    (Action::Load { word }, Outcome::Word(found))
}

/// A word of DRAM is stored.
fn stores(word: u32, value: u64) -> Made {
    (Action::Store { word, value }, Outcome::Done)
}

/// Ticket 21 is drawn, with this page.
fn draws_with(call: Call, page: Option<PageInput>, reply: Reply, tried: Tried) -> Made {
    let draft = Draft {
        serial: 3,
        call,
        page,
        reply,
        tried,
    };
    (Action::Draw { draft }, Outcome::Ticket(21))
}

/// Ticket 21 is drawn.
fn draws(call: Call, reply: Reply, tried: Tried) -> Made {
    draws_with(call, None, reply, tried)
}

/// A call by core 1 of two, its fourth, for the OS; the core has 10 answers.
fn begun(call: Call) -> CallMachine {
    CallMachine::begin(&Config::plain(2), 1, 3, Mode::Os, call, 10)
}

/// The same in the place of another.
fn again(machine: &mut CallMachine, call: Call) {
    machine.begin_again(&Config::plain(2), 1, 3, Mode::Os, call, 10);
}

// ---- objects and rows

const E3: ObjectId = ObjectId::Enclave(3);

const REGION_1: ObjectId = ObjectId::Region(1);

const REGION_2: ObjectId = ObjectId::Region(2);

const REGION_5: ObjectId = ObjectId::Region(5);

const C0: ObjectId = ObjectId::Cell(0);

const C1: ObjectId = ObjectId::Cell(1);

/// No objects, to begin with.
const NONE: Tried = Tried {
    enclaves: 0,
    threads: 0,
    regions: 0,
    cells: 0,
};

/// A Loading enclave of 4 MiB with regions 1 to 4 and a root in page 1, where page 4 is the next.
const LOADING: [u64; 29] = [
    1, 0, 4194304, 30, 2, 4, 0, 0, 0, 0, 0, 0, 0, 0, 0, 0, 0, 0, 0, 0, 0, 0, 0, 0, 0, 0, 0, 0, 0,
];

/// A Loading enclave with regions 1 and 2, without threads; its measurement has the words 11 to 14.
const UNUSED: [u64; 29] = [
    1, 0, 4194304, 6, 2, 2, 0, 11, 12, 13, 14, 0, 0, 0, 0, 0, 0, 0, 0, 0, 0, 0, 0, 0, 0, 0, 0, 0, 0,
];

/// Page-table entries that lead to the tables in pages 2 and 3: (0x80000 + page) * 1024 + 1.
const TO_PAGE_2: u64 = 536872961;

const TO_PAGE_3: u64 = 536873985;

// ---- calls

const BLOCK: Call = Call::Block { r: 1 };

/// All moves of a block of region 1, which the OS has owned since ticket 7.
fn blocks(rt: &impl Abort, machine: &mut CallMachine) {
    let tried = Tried { regions: 2, ..NONE };
    takes(rt, machine, REGION_1, &[1 + 64 * 7, 0]);
    follows(
        rt,
        machine,
        &[
            writes(REGION_1, 0, 2 + 64 * 7),
            draws(BLOCK, Reply::done(), tried),
            writes(REGION_1, 1, 21),
            gives(REGION_1),
        ],
    );
    ends(rt, machine, Reply::done(), After::Nothing, 7);
}

#[test]
fn a_block_withdraws_before_its_ticket(rt: HostRuntime) {
    blocks(&rt, &mut begun(BLOCK));
}

#[test]
fn a_refusal_writes_nothing(rt: HostRuntime) {
    let tried = Tried { regions: 2, ..NONE };
    let mut machine = begun(BLOCK);
    // Free
    takes(&rt, &mut machine, REGION_1, &[0, 0]);
    follows(
        &rt,
        &mut machine,
        &[draws(BLOCK, Reply::InvalidState, tried), gives(REGION_1)],
    );
    ends(&rt, &machine, Reply::InvalidState, After::Nothing, 5);
}

#[test]
fn what_is_refused_early_draws_alone(rt: HostRuntime) {
    let mut machine = begun(Call::Exit);
    makes(
        &rt,
        &mut machine,
        &draws(Call::Exit, Reply::AccessDenied, NONE),
    );
    ends(&rt, &machine, Reply::AccessDenied, After::Nothing, 1);
}

#[test]
fn a_flush_clears_the_translations(rt: HostRuntime) {
    let tried = Tried { cells: 2, ..NONE };
    let mut machine = begun(Call::Flush);
    takes(&rt, &mut machine, C1, &[5]);
    follows(
        &rt,
        &mut machine,
        &[
            draws(Call::Flush, Reply::done(), tried),
            writes(C1, 0, 21),
            gives(C1),
        ],
    );
    ends(&rt, &machine, Reply::done(), After::Cleared, 5);
}

#[test]
fn a_lock_that_is_held_refuses_and_all_are_given_back(rt: HostRuntime) {
    let call = Call::Assign { r: 1, to: 3 };
    let reply = Reply::ConcurrentCall {
        lock: REGION_1,
        holder: 0,
        serial: 5,
    };
    let tried = Tried {
        enclaves: 8,
        regions: 2,
        ..NONE
    };
    let mut machine = begun(call);
    takes(&rt, &mut machine, E3, &LOADING);
    let held = Outcome::HeldBy { core: 0, serial: 5 };
    makes(
        &rt,
        &mut machine,
        &(Action::TryLock { object: REGION_1 }, held),
    );
    follows(&rt, &mut machine, &[draws(call, reply, tried), gives(E3)]);
    ends(&rt, &machine, reply, After::Nothing, 33);
}

#[test]
fn a_free_leaves_zeros_behind_its_draw(rt: HostRuntime) {
    let call = Call::Free { r: 1 };
    let tried = Tried {
        regions: 2,
        cells: 3,
        ..NONE
    };
    let mut machine = begun(call);
    // Blocked since ticket 0, at ticket 5; both cores have flushed
    takes(&rt, &mut machine, REGION_1, &[2, 5]);
    takes(&rt, &mut machine, C0, &[6]);
    takes(&rt, &mut machine, C1, &[7]);
    makes(&rt, &mut machine, &draws(call, Reply::done(), tried));
    for word in 512..1024 {
        makes(&rt, &mut machine, &stores(word, 0));
    }
    follows(
        &rt,
        &mut machine,
        &[
            writes(REGION_1, 0, 0),
            writes(REGION_1, 1, 0),
            gives(C1),
            gives(C0),
            gives(REGION_1),
        ],
    );
    ends(&rt, &machine, Reply::done(), After::Nothing, 525);
}

const DELETE: Call = Call::Delete { e: 3 };

/// The moves of a delete of an enclave with regions 1 and 2, up to the Draw.
fn withdraws_two(rt: &impl Abort, machine: &mut CallMachine) {
    takes(rt, machine, E3, &UNUSED);
    // Its own since tickets 7 and 8
    takes(rt, machine, REGION_1, &[1 + 4 * 4 + 64 * 7, 0]);
    takes(rt, machine, REGION_2, &[1 + 4 * 4 + 64 * 8, 0]);
    follows(
        rt,
        machine,
        &[
            writes(REGION_1, 0, 2 + 4 * 4 + 64 * 7),
            writes(REGION_2, 0, 2 + 4 * 4 + 64 * 8),
        ],
    );
}

#[test]
fn a_delete_withdraws_each_region_and_empties_the_slot(rt: HostRuntime) {
    let tried = Tried {
        enclaves: 8,
        regions: 6,
        ..NONE
    };
    let mut machine = begun(DELETE);
    withdraws_two(&rt, &mut machine);
    makes(&rt, &mut machine, &draws(DELETE, Reply::done(), tried));
    for at in [0, 2, 3, 4, 5, 7, 8, 9, 10] {
        makes(&rt, &mut machine, &writes(E3, at, 0));
    }
    follows(
        &rt,
        &mut machine,
        &[
            writes(REGION_1, 1, 21),
            writes(REGION_2, 1, 21),
            gives(REGION_2),
            gives(REGION_1),
            gives(E3),
        ],
    );
    ends(&rt, &machine, Reply::done(), After::Nothing, 53);
}

#[test]
fn a_reserve_stores_its_entry(rt: HostRuntime) {
    let call = Call::Reserve {
        e: 3,
        va: 0,
        page: 5,
        perms: 3,
    };
    let tried = Tried {
        enclaves: 8,
        ..NONE
    };
    let mut machine = begun(call);
    takes(&rt, &mut machine, E3, &LOADING);
    follows(
        &rt,
        &mut machine,
        &[
            loads(512, TO_PAGE_2),
            loads(1024, TO_PAGE_3),
            loads(1536, 0),
            stores(1536, 536876247),
            draws(call, Reply::done(), tried),
            writes(E3, 5, 6),
            // SHA-256 of 32 zeros, the byte 2, and the words 0 and 11
            writes(E3, 7, 13986515736020903235),
            writes(E3, 8, 6556321917017218299),
            writes(E3, 9, 6434640674323663307),
            writes(E3, 10, 16145845378708936486),
            gives(E3),
        ],
    );
    ends(&rt, &machine, Reply::done(), After::Nothing, 41);
}

const LOAD_PAGE: Call = Call::LoadPage {
    e: 3,
    va: 0,
    page: 4,
    src: 5,
    perms: 5,
};

/// SHA-256 of the words 0 to 511, and the place of the first behind 10 answers and three page-table entries.
const WORDS_READ: PageInput = PageInput {
    digest: [
        0x57, 0x38, 0x15, 0x3e, 0xc9, 0x75, 0x95, 0xb1, 0xc1, 0xe4, 0xdc, 0x02, 0x7f, 0x7b, 0x7f,
        0xb4, 0x53, 0x4f, 0x19, 0xed, 0x2c, 0xe9, 0xf9, 0xee, 0x71, 0x2e, 0x6d, 0x34, 0xa3, 0x84,
        0xcd, 0xe7,
    ],
    at: 13,
};

/// The moves of a load_page from page 5 of the OS to page 4, up to the Draw: word i of page 5 is i.
fn copies(rt: &impl Abort, machine: &mut CallMachine) {
    takes(rt, machine, E3, &LOADING);
    takes(rt, machine, REGION_5, &[1, 0]);
    follows(
        rt,
        machine,
        &[
            loads(512, TO_PAGE_2),
            loads(1024, TO_PAGE_3),
            loads(1536, 0),
        ],
    );
    for i in 0u32..512 {
        makes(rt, machine, &loads(2560 + i, u64::from(i)));
        makes(rt, machine, &stores(2048 + i, u64::from(i)));
    }
    makes(rt, machine, &stores(1536, 536875227));
}

/// All moves of that load_page.
fn loads_page(rt: &impl Abort, machine: &mut CallMachine) {
    let tried = Tried {
        enclaves: 8,
        regions: 32,
        ..NONE
    };
    copies(rt, machine);
    follows(
        rt,
        machine,
        &[
            draws_with(LOAD_PAGE, Some(WORDS_READ), Reply::done(), tried),
            writes(E3, 5, 5),
            // SHA-256 of 32 zeros, the byte 3, the words 0 and 5, and the digest
            writes(E3, 7, 13569283817083771027),
            writes(E3, 8, 6672594148656810045),
            writes(E3, 9, 4256561784937005699),
            writes(E3, 10, 8530367755808507489),
            gives(REGION_5),
            gives(E3),
        ],
    );
    ends(rt, machine, Reply::done(), After::Nothing, 1069);
}

#[test]
fn a_load_page_copies_each_word_and_stores_its_entry(rt: HostRuntime) {
    loads_page(&rt, &mut begun(LOAD_PAGE));
}

#[test]
fn what_begins_again_begins_as_new(rt: HostRuntime) {
    let mut machine = begun(LOAD_PAGE);
    loads_page(&rt, &mut machine);
    again(&mut machine, BLOCK);
    blocks(&rt, &mut machine);
    again(&mut machine, DELETE);
    withdraws_two(&rt, &mut machine);
    again(&mut machine, LOAD_PAGE);
    copies(&rt, &mut machine);
    again(&mut machine, LOAD_PAGE);
    loads_page(&rt, &mut machine);
}
