//! Guest code on one core, with values worked out by hand. The machine has 16 regions of one page; page n is
//! region n. Code stands in memory because lines store it there.

ghost use Rattle.std.specs.Prelude.{◌≡◌, ◌≤◌, ◌+◌, length, IfOk};
ghost use Rattle.solo.specs.Given.{IsOneScript};

use crate::solo;
use crate::tests::{ENTER, THREAD, event, expect_words, image, script};
use hist::{Event, Finished, Why};
use mon_types::{Call, Items, Line, Script};
use std::alloc::{AllocError, Global};
use std::process::Abort;
use std::test::Fail;

/// The word of two instructions, the first at the lower address.
fn code(first: u32, second: u32) -> u64 {
    first as u64 | ((second as u64) << 32)
}

const ECALL: u32 = 0x0000_0073;

const EBREAK: u32 = 0x0010_0073;

const SFENCE: u32 = 0x1200_0073;

/// lui x12, 0x11: the address 0x11000, in the enclave's range, but not mapped.
const LUI_UNMAPPED: u32 = 0x0001_1637;

/// lui x12, 0x10: the address 0x10000, the enclave's page, which it may load and fetch from.
const LUI_OWN: u32 = 0x0001_0637;

/// ld x5, 0(x12)
const LD: u32 = 0x0006_3283;

/// sd x11, 0(x12)
const SD: u32 = 0x00b6_3023;

/// addi x5, x5, 1
const ADD_ONE: u32 = 0x0012_8293;

/// sd x5, 8(x12)
const SD_NEXT: u32 = 0x0056_3423;

/// addi x17, x0, 13: the number of enter
const ASK_ENTER: u32 = 0x00d0_0893;

/// sd x12, 0(x9) and sd x13, 8(x9): the cause and the value of an exit, which x12 and x13 then hold
const KEEP_CAUSE: Line = Line::StoreWord(0x8000_0000, 0x00d4_b423_00c4_b023);

const INIT: Line = Line::Make(Call::Init { e: 0 });

/// Mode 8 and the root on page 10.
const SATP: Line = Line::Make(Call::SetSatp {
    v: 0x8000_0000_0008_000a,
});

/// The lines of one core.
fn lines_alone(alloc: Global, lines: &[Line]) -> Result<Script, AllocError>
    requires { length lines.now ≤ 1000 }
    ensures { IfOk result (λ s. IsOneScript s.cores) }
{
    let mut cores = Items::new(alloc);
    cores.push(Items::from_vec(Vec::from_slice(alloc, lines)?))?;
    Ok(Script { cores })
}

/// Runs lines on a machine whose memory holds zeros.
fn run(alloc: Global, lines: &[Line]) -> Result<Finished, AllocError>
    requires { length lines.now ≤ 1000 }
{
    solo(alloc, &image(alloc)?, lines_alone(alloc, lines)?)
}

/// Builds the enclave, whose page then has these words at its begin, and runs lines.
fn run_enclave(alloc: Global, words: [u64; 2], lines: &[Line]) -> Result<Finished, AllocError>
    requires { length lines.now ≤ 1000 }
{
    let first = [
        KEEP_CAUSE,
        Line::StoreWord(0x8000_1000, words[0]),
        Line::StoreWord(0x8000_1008, words[1]),
        Line::SetReg(9, 0x8000_6000),
    ];
    solo(alloc, &image(alloc)?, script(alloc, &first, lines)?)
}

/// The last event of the core's log.
fn last(finished: &Finished) -> Option<Event> {
    finished.logs.as_slice().first()?.events().last().copied()
}

/// How many events the core logged.
fn events(finished: &Finished) -> usize {
    finished
        .logs
        .as_slice()
        .first()
        .map_or(0, |log| log.events().len())
}

/// How many answers the core was given.
fn answers(finished: &Finished) -> usize {
    finished
        .answers
        .as_slice()
        .first()
        .map_or(0, |list| list.len())
}

/// Checks that the last event is this trap.
fn expect_trap(rt: &impl Abort, finished: &Finished, line: u32, cause: u64, value: u64) {
    let why = Why::Trap { cause, value };
    assert_eq!(rt;
        last(finished),
        Some(Event::Stop { line, why }),
        "trap {cause}"
    );
}

/// The call at a place of the log.
fn call_at(finished: &Finished, place: usize) -> Option<Call> {
    match event(finished, place)? {
        Event::Entry(entry) => Some(entry.call),
        _ => None,
    }
}

/// The saved words of the aex at a place of the log.
fn saved_at(finished: &Finished, place: usize) -> Option<[u64; 33]> {
    match call_at(finished, place)? {
        Call::Aex { saved } => Some(saved),
        _ => None,
    }
}

// ---- traps of the OS

/// Runs two instructions at the start of DRAM, in Bare, with x12 set so, and expects a trap.
fn expect_os_trap(
    rt: &impl Abort,
    alloc: Global,
    words: (u32, u32),
    x12: u64,
    trap: (u64, u64),
) -> Result<(), AllocError> {
    let lines = [
        Line::StoreWord(0x8000_0000, code(words.0, words.1)),
        Line::SetReg(12, x12),
        Line::Run(10),
        Line::SetReg(12, 0),
    ];
    let finished = run(alloc, &lines)?;
    expect_trap(rt, &finished, 3, trap.0, trap.1);
    Ok(())
}

#[test]
fn each_trap_of_the_os_in_bare(rt: HostRuntime) -> Result<(), Fail> {
    let alloc = rt.alloc();
    let at = 0x8000_0000;
    // jal x0, 2
    expect_os_trap(&rt, alloc, (0x0020_006f, 0), 0, (0, at + 2))?;
    // jalr x0, 0(x0), to an address outside DRAM
    expect_os_trap(&rt, alloc, (0x0000_0067, 0), 0, (1, 0))?;
    expect_os_trap(&rt, alloc, (ADD_ONE, 0), 0, (2, 0))?;
    // lr.d is in no row
    expect_os_trap(&rt, alloc, (0x1006_32af, 0), 0, (2, 0x1006_32af))?;
    expect_os_trap(&rt, alloc, (ADD_ONE, EBREAK), 0, (3, at + 4))?;
    expect_os_trap(&rt, alloc, (LD, 0), at + 4, (4, at + 4))?;
    expect_os_trap(&rt, alloc, (LD, 0), at + 0x10000, (5, at + 0x10000))?;
    expect_os_trap(&rt, alloc, (SD, 0), at + 1, (6, at + 1))?;
    expect_os_trap(&rt, alloc, (SD, 0), at - 8, (7, at - 8))?;
    // amoadd.d and amoadd.w x10, x11, (x12)
    expect_os_trap(&rt, alloc, (0x00b6_352f, 0), at + 4, (6, at + 4))?;
    expect_os_trap(&rt, alloc, (0x00b6_252f, 0), at - 4, (7, at - 4))?;
    Ok(())
}

#[test]
fn a_fetch_at_an_odd_pc_traps(rt: HostRuntime) -> Result<(), Fail> {
    let finished = run(rt.alloc(), &[Line::SetPc(0x8000_0002), Line::Run(5)])?;
    expect_trap(&rt, &finished, 2, 0, 0x8000_0002);
    assert_eq!(rt; (events(&finished), answers(&finished)), (1, 0));
    Ok(())
}

#[test]
fn page_faults_of_the_os(rt: HostRuntime) -> Result<(), Fail> {
    // The third entry of the root is a leaf of 1 GiB at 0x80000000, with D, A, X, R and V.
    let begin = [
        Line::StoreWord(0x8000_a010, 0x2000_00cb),
        Line::StoreWord(0x8000_0000, code(LD, SD)),
        SATP,
    ];
    for (x12, pc, cause, value) in [
        (0x4000_0000, 0x8000_0000, 13, 0x4000_0000),
        (0x8000_2000, 0x8000_0004, 15, 0x8000_2000),
        (0, 0x4000_0000, 12, 0x4000_0000),
        (0x40_0000_0000, 0x8000_0000, 13, 0x40_0000_0000),
    ] {
        let lines = [
            begin[0],
            begin[1],
            begin[2],
            Line::SetReg(12, x12),
            Line::SetPc(pc),
            Line::Run(1),
        ];
        let finished = run(rt.alloc(), &lines)?;
        expect_trap(&rt, &finished, 6, cause, value);
    }
    Ok(())
}

// ---- traps of an enclave

/// Runs an enclave of these instructions up to its trap, and expects its cause and value in the registers of
/// the OS, and the words that were saved again after restore.
fn expect_exit(
    rt: &impl Abort,
    alloc: Global,
    words: (u32, u32),
    cause: u64,
    value: u64,
) -> Result<(), AllocError> {
    let lines = [
        Line::Make(THREAD),
        INIT,
        Line::Make(ENTER),
        Line::Run(5),
        // the OS keeps cause and value, and then meets a word of zeros
        Line::Run(2),
        Line::Make(ENTER),
        Line::Make(Call::Restore),
        Line::Tick,
    ];
    let finished = run_enclave(alloc, [code(words.0, words.1), 0], &lines)?;
    expect_words(rt, &finished, &[(6 * 512, cause), (6 * 512 + 1, value)]);
    let count = events(&finished);
    let again = saved_at(&finished, count.saturating_sub(1));
    let mut first = None;
    for place in 0..count.saturating_sub(1) {
        if let Some(saved) = saved_at(&finished, place) {
            first = Some(saved);
        }
    }
    assert_eq!(rt; first.map(|saved| saved[32]), Some(cause), "cause {cause}");
    assert_eq!(rt;
        again.map(|saved| saved[32]),
        Some(0x8000_0000_0000_0005),
        "tick after {cause}"
    );
    for x in 0..32 {
        expect_kept(rt, (first, again), x, cause);
    }
    Ok(())
}

/// Checks that a word is the same in what two exits saved.
fn expect_kept(rt: &impl Abort, saved: (Option<[u64; 33]>, Option<[u64; 33]>), x: usize, cause: u64)
    requires { x ≤ 32 }
{
    let kept = (saved.0.map(|saved| saved[x]), saved.1.map(|saved| saved[x]));
    assert_eq!(rt; kept.0, kept.1, "word {x} after {cause}");
}

#[test]
fn each_trap_of_an_enclave(rt: HostRuntime) -> Result<(), Fail> {
    let alloc = rt.alloc();
    // jal x0, 2
    expect_exit(&rt, alloc, (0x0020_006f, 0), 0, 65538)?;
    // jalr x0, 0(x0): outside the range Bare leads outside DRAM
    expect_exit(&rt, alloc, (0x0000_0067, 0), 1, 0)?;
    expect_exit(&rt, alloc, (ADD_ONE, 0), 2, 0)?;
    expect_exit(&rt, alloc, (ADD_ONE, SFENCE), 2, 0x1200_0073)?;
    expect_exit(&rt, alloc, (ADD_ONE, EBREAK), 3, 65540)?;
    // ld x5, 1(x0) and ld x5, 0(x0)
    expect_exit(&rt, alloc, (0x0010_3283, 0), 4, 1)?;
    expect_exit(&rt, alloc, (0x0000_3283, 0), 5, 0)?;
    // sd x0, 1(x0) and sd x0, 0(x0)
    expect_exit(&rt, alloc, (0x0000_30a3, 0), 6, 1)?;
    expect_exit(&rt, alloc, (0x0000_3023, 0), 7, 0)?;
    // jalr x0, 0(x12): the fetch, then a load and a store that page faults stop
    expect_exit(&rt, alloc, (LUI_UNMAPPED, 0x0006_0067), 12, 69632)?;
    expect_exit(&rt, alloc, (LUI_UNMAPPED, LD), 13, 69632)?;
    expect_exit(&rt, alloc, (LUI_OWN, SD), 15, 65536)?;
    Ok(())
}

/// Checks that the i-th of the last seven events of the core's log, counted from 0, is this touch.
fn expect_touch(rt: &impl Abort, finished: &Finished, i: usize, region: u8, since: u32) {
    let place = events(finished).saturating_sub(7).saturating_add(i);
    assert_eq!(rt;
        event(finished, place),
        Some(Event::Touch { region, since }),
        "touch {i}"
    );
}

#[test]
fn an_enclave_uses_the_tables_of_the_os_outside_its_range(rt: HostRuntime) -> Result<(), Fail> {
    // lui x12, 0x40006; ld x5, 0(x12); sd x5, 8(x12): the second entry of the root is a leaf of 1 GiB at
    // 0x80000000 for user mode, with D, A, U, X, W, R and V.
    let words = [code(0x4000_6637, LD), code(SD_NEXT, EBREAK)];
    let lines = [
        Line::Make(THREAD),
        INIT,
        Line::StoreWord(0x8000_6000, 77),
        Line::StoreWord(0x8000_a008, 0x2000_00df),
        SATP,
        Line::Make(ENTER),
        Line::Run(3),
        Line::Tick,
    ];
    let finished = run_enclave(rt.alloc(), words, &lines)?;
    expect_words(&rt, &finished, &[(6 * 512, 77), (6 * 512 + 1, 77)]);
    let touched = [(2, 11), (3, 12), (4, 13), (5, 14), (10, 0), (6, 0)];
    for (i, (region, since)) in touched.iter().enumerate() {
        expect_touch(&rt, &finished, i, *region, *since);
    }
    Ok(())
}

// ---- who entered

/// The enclave that asks for exit at once: addi x17, x0, 14, the number of exit; ecall.
const EXITS: [u64; 2] = [0x0000_0073_00e0_0893, 0];

#[test]
fn a_run_ends_by_coming_back_from_what_a_line_entered(rt: HostRuntime) -> Result<(), Fail> {
    let lines = [
        Line::Make(THREAD),
        INIT,
        Line::Make(ENTER),
        Line::Run(1000),
        Line::StoreWord(0x8000_6008, 5),
    ];
    let finished = run_enclave(rt.alloc(), EXITS, &lines)?;
    // x12 and x13 of the OS were not stored, since no turn of the OS was made
    expect_words(&rt, &finished, &[(6 * 512, 0), (6 * 512 + 1, 5)]);
    // the exit cleared the touches, so the store behind it is one
    assert_eq!(rt;
        last(&finished),
        Some(Event::Touch {
            region: 6,
            since: 0
        })
    );
    Ok(())
}

#[test]
fn a_run_goes_on_after_what_guest_code_entered(rt: HostRuntime) -> Result<(), Fail> {
    // The OS asks for enter 0 0, and goes on past its ECALL after the exit, whose registers it then has.
    let lines = [
        Line::Make(THREAD),
        INIT,
        Line::StoreWord(0x8000_0000, code(ASK_ENTER, ECALL)),
        Line::StoreWord(0x8000_0008, code(0x00c4_b023, EBREAK)),
        Line::StoreWord(0x8000_6000, 1),
        Line::SetReg(12, 9),
        Line::Run(1000),
    ];
    let finished = run_enclave(rt.alloc(), EXITS, &lines)?;
    expect_words(&rt, &finished, &[(6 * 512, 0)]);
    // 4 lines before, the 18 lines that load the enclave, and these 7
    expect_trap(&rt, &finished, 29, 3, 0x8000_000c);
    Ok(())
}

// ---- stores and atomic instructions

#[test]
fn narrow_stores_change_their_bytes_alone(rt: HostRuntime) -> Result<(), Fail> {
    // sb x11, 1(x12) and sw x11, 4(x12)
    let lines = [
        Line::StoreWord(0x8000_0000, code(0x00b6_00a3, 0x00b6_2223)),
        Line::StoreWord(0x8000_6000, 0x1122_3344_5566_7788),
        Line::SetReg(11, 0xffff_ffff_0000_00aa),
        Line::SetReg(12, 0x8000_6000),
        Line::Run(1),
        Line::Run(1),
    ];
    let finished = run(rt.alloc(), &lines)?;
    expect_words(&rt, &finished, &[(6 * 512, 0x0000_00aa_5566_aa88)]);
    // two looks, then an instruction and the loaded word for each turn
    assert_eq!(rt; answers(&finished), 2 + 4);
    Ok(())
}

#[test]
fn atomic_instructions_load_and_store(rt: HostRuntime) -> Result<(), Fail> {
    // amoadd.w x10, x11, (x12), then sd x10, 8(x12)
    let lines = [
        Line::StoreWord(0x8000_0000, code(0x00b6_252f, 0x00a6_3423)),
        Line::StoreWord(0x8000_6000, 0x1122_3344_ffff_ffff),
        Line::SetReg(11, 3),
        Line::SetReg(12, 0x8000_6000),
        Line::Run(2),
    ];
    let finished = run(rt.alloc(), &lines)?;
    expect_words(
        &rt,
        &finished,
        &[
            (6 * 512, 0x1122_3344_0000_0002),
            (6 * 512 + 1, 0xffff_ffff_ffff_ffff),
        ],
    );
    assert_eq!(rt; answers(&finished), 2 + 3);
    Ok(())
}

#[test]
fn x0_stays_0(rt: HostRuntime) -> Result<(), Fail> {
    // ld x0, 0(x12); sd x0, 8(x12)
    let lines = [
        Line::StoreWord(0x8000_0000, code(0x0006_3003, 0x0006_3423)),
        Line::StoreWord(0x8000_6000, 7),
        Line::StoreWord(0x8000_6008, 8),
        Line::SetReg(12, 0x8000_6000),
        Line::Run(2),
    ];
    let finished = run(rt.alloc(), &lines)?;
    expect_words(&rt, &finished, &[(6 * 512, 7), (6 * 512 + 1, 0)]);
    Ok(())
}

// ---- the translation cache

#[test]
fn a_translation_lasts_until_sfence(rt: HostRuntime) -> Result<(), Fail> {
    let lines = [
        // The third entry of the root is a leaf of 1 GiB for DRAM; tables on pages 11 and 12 lead 0 to page 6.
        Line::StoreWord(0x8000_a010, 0x2000_00cf),
        Line::StoreWord(0x8000_a000, 0x2000_2c01),
        Line::StoreWord(0x8000_b000, 0x2000_3001),
        Line::StoreWord(0x8000_c000, 0x2000_18c7),
        Line::StoreWord(0x8000_6000, 66),
        Line::StoreWord(0x8000_7000, 77),
        // sd x10, 0(x9); sfence.vma; sd x10, 8(x9)
        Line::StoreWord(0x8000_0000, code(0x00a4_b023, SFENCE)),
        Line::StoreWord(0x8000_0008, code(0x00a4_b423, 0)),
        Line::SetReg(9, 0x8000_8000),
        SATP,
        Line::LoadWord(0),
        // now 0 is led to page 7
        Line::StoreWord(0x8000_c000, 0x2000_1cc7),
        Line::LoadWord(0),
        Line::Run(2),
        Line::LoadWord(0),
        Line::Run(1),
    ];
    let finished = run(rt.alloc(), &lines)?;
    expect_words(&rt, &finished, &[(8 * 512, 66), (8 * 512 + 1, 77)]);
    // Touches: six in Bare, and after the entry 10, 11, 12, 6, 0, 8 and 7. SFENCE.VMA clears none.
    assert_eq!(rt; events(&finished), 6 + 1 + 7);
    let touch = Event::Touch {
        region: 7,
        since: 0,
    };
    assert_eq!(rt; last(&finished), Some(touch));
    Ok(())
}

#[test]
fn an_entry_that_forbids_is_no_hit(rt: HostRuntime) -> Result<(), Fail> {
    // The third entry of the root is a leaf of 1 GiB without D: loads fill it in, and stores fault.
    let lines = [
        Line::StoreWord(0x8000_a010, 0x2000_004f),
        SATP,
        Line::LoadWord(0x8000_6000),
        Line::StoreWord(0x8000_6000, 1),
    ];
    let finished = run(rt.alloc(), &lines)?;
    expect_trap(&rt, &finished, 4, 15, 0x8000_6000);
    expect_words(&rt, &finished, &[(6 * 512, 0)]);
    Ok(())
}

// ---- ECALL

#[test]
fn guest_code_makes_calls(rt: HostRuntime) -> Result<(), Fail> {
    // addi x17, x0, 4; ecall; ebreak: flush, and its reply in x10
    let lines = [
        Line::StoreWord(0x8000_0000, code(0x0040_0893, ECALL)),
        Line::StoreWord(0x8000_0008, code(EBREAK, 0)),
        Line::SetReg(10, 5),
        Line::Run(10),
    ];
    let finished = run(rt.alloc(), &lines)?;
    expect_trap(&rt, &finished, 4, 3, 0x8000_0008);
    let touch = Some(Event::Touch {
        region: 0,
        since: 0,
    });
    assert_eq!(rt; (event(&finished, 0), event(&finished, 2)), (touch, touch));
    assert_eq!(rt; call_at(&finished, 1), Some(Call::Flush));
    Ok(())
}

// ---- budgets

#[test]
fn answers_run_out(rt: HostRuntime) -> Result<(), Fail> {
    // ld x5, 0(x12); jal x0, -4
    let lines = [
        Line::StoreWord(0x8000_0000, code(LD, 0xffdf_f06f)),
        Line::SetReg(12, 0x8000_1000),
        Line::Run(1_000_000),
        Line::Make(Call::Flush),
    ];
    let finished = run(rt.alloc(), &lines)?;
    let limit = Event::Stop {
        line: 3,
        why: Why::Limit,
    };
    assert_eq!(rt; (events(&finished), last(&finished)), (3, Some(limit)));
    // Two looks; then three answers for two turns, as long as 600 are left before a turn.
    assert_eq!(rt; answers(&finished), 1_047_977);
    Ok(())
}
