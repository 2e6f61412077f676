//! What a run leaves beside the lines of its report: DRAM, answers, and what an interrupted thread saved.

ghost use Rattle.std.specs.Prelude.{◌≡◌, ◌≤◌, ◌+◌, length, IfOk};
ghost use Rattle.solo.specs.Given.{IsOneImage, IsOneScript};

use crate::solo;
use hist::{Event, Finished};
use mon_types::{Call, Config, Image, Items, Line, Script, Start};
use std::alloc::{AllocError, Global};
use std::process::Abort;
use std::test::Fail;

/// A small enclave in slot 0 as far as its page: tables in pages 2 to 4, and a copy of page 1 in page 5.
pub const LOADED: [Line; 18] = [
    Line::Make(Call::Block { r: 2 }),
    Line::Make(Call::Block { r: 3 }),
    Line::Make(Call::Block { r: 4 }),
    Line::Make(Call::Block { r: 5 }),
    Line::Make(Call::Flush),
    Line::Make(Call::Free { r: 2 }),
    Line::Make(Call::Free { r: 3 }),
    Line::Make(Call::Free { r: 4 }),
    Line::Make(Call::Free { r: 5 }),
    Line::Make(Call::Create {
        e: 0,
        base: 65536,
        size: 16384,
    }),
    Line::Make(Call::Assign { r: 2, to: 0 }),
    Line::Make(Call::Assign { r: 3, to: 0 }),
    Line::Make(Call::Assign { r: 4, to: 0 }),
    Line::Make(Call::Assign { r: 5, to: 0 }),
    Line::Make(Call::LoadTable {
        e: 0,
        va: 0,
        level: 2,
        page: 2,
    }),
    Line::Make(Call::LoadTable {
        e: 0,
        va: 65536,
        level: 1,
        page: 3,
    }),
    Line::Make(Call::LoadTable {
        e: 0,
        va: 65536,
        level: 0,
        page: 4,
    }),
    Line::Make(Call::LoadPage {
        e: 0,
        va: 65536,
        page: 5,
        src: 1,
        perms: 5,
    }),
];

pub const THREAD: Call = Call::LoadThread {
    e: 0,
    t: 0,
    entry: 65536,
    sp: 77,
};

pub const ENTER: Call = Call::Enter { e: 0, t: 0 };

/// A machine with one core and 16 regions of one page.
pub fn image(alloc: Global) -> Result<Image, AllocError>
    ensures { IfOk result IsOneImage }
{
    let mut starts = Items::new(alloc);
    starts.push(Start {
        pc: 0x8000_0000,
        sp: 0,
    })?;
    Ok(Image {
        config: Config::new(1, 16, 1, 0).unwrap_or(Config::plain(1)),
        starts,
        segments: Items::new(alloc),
    })
}

/// Some lines, the lines of `LOADED`, and others behind them.
pub fn script(alloc: Global, first: &[Line], more: &[Line]) -> Result<Script, AllocError>
    requires first { length first.now ≤ 1000 }
    requires more { length more.now ≤ 1000 }
    ensures { IfOk result (λ s. IsOneScript s.cores) }
{
    let mut lines = Vec::from_slice(alloc, first)?;
    lines.extend_from_slice(&LOADED)?;
    lines.extend_from_slice(more)?;
    let mut cores = Items::new(alloc);
    cores.push(Items::from_vec(lines))?;
    Ok(Script { cores })
}

/// Runs the lines of `LOADED` and these.
fn run(alloc: Global, more: &[Line]) -> Result<Finished, AllocError>
    requires { length more.now ≤ 1000 }
{
    solo(alloc, &image(alloc)?, script(alloc, &[], more)?)
}

/// The event at a place of the core's log.
pub fn event(finished: &Finished, place: usize) -> Option<Event> {
    finished
        .logs
        .as_slice()
        .first()?
        .events()
        .get(place)
        .copied()
}

/// Compares words of DRAM.
pub fn expect_words(rt: &impl Abort, finished: &Finished, words: &[(usize, u64)]) {
    for (place, word) in words {
        assert_eq!(rt;
            finished.words.as_slice().get(*place).copied(),
            Some(*word),
            "word {place}"
        );
    }
}

#[test]
fn ptes_stand_in_memory(rt: HostRuntime) -> Result<(), Fail> {
    let reserve = Call::Reserve {
        e: 0,
        va: 69632,
        page: 12,
        perms: 3,
    };
    let finished = run(rt.alloc(), &[Line::Make(reserve)])?;
    expect_words(
        &rt,
        &finished,
        &[
            (2 * 512, 0x2000_0c01),
            (3 * 512, 0x2000_1001),
            (4 * 512 + 16, 0x2000_14db),
            (4 * 512 + 17, 0x2000_30d7),
        ],
    );
    Ok(())
}

#[test]
fn freed_pages_hold_zeros(rt: HostRuntime) -> Result<(), Fail> {
    let lines = [
        Line::Make(Call::Delete { e: 0 }),
        Line::Make(Call::Flush),
        Line::Make(Call::Free { r: 2 }),
        Line::Make(Call::Free { r: 4 }),
    ];
    let finished = run(rt.alloc(), &lines)?;
    expect_words(
        &rt,
        &finished,
        &[(2 * 512, 0), (3 * 512, 0x2000_1001), (4 * 512 + 16, 0)],
    );
    Ok(())
}

#[test]
fn a_page_begins_behind_its_ptes(rt: HostRuntime) -> Result<(), Fail> {
    let finished = run(rt.alloc(), &[])?;
    let answers = finished
        .answers
        .as_slice()
        .first()
        .map_or(0, |list| list.len());
    assert_eq!(rt; answers, 1 + 2 + 3 + 512);
    let at = match event(&finished, 17) {
        Some(Event::Entry(entry)) => entry.page.map(|page| page.at),
        _ => None,
    };
    assert_eq!(rt; at, Some(1 + 2 + 3));
    Ok(())
}

#[test]
fn the_machines_lines_of_the_os_log_nothing(rt: HostRuntime) -> Result<(), Fail> {
    let lines = [Line::Tick, Line::SetPc(4), Line::SetReg(31, 7)];
    let finished = run(rt.alloc(), &lines)?;
    assert_eq!(rt; event(&finished, 18).is_none(), true);
    Ok(())
}

/// Checks that the entry at a place of the core's log is an exit that saved these words.
fn expect_saved(rt: &impl Abort, finished: &Finished, place: usize, saved: [u64; 33]) {
    let call = match event(finished, place) {
        Some(Event::Entry(entry)) => Some(entry.call),
        _ => None,
    };
    assert_eq!(rt; call, Some(Call::Aex { saved }), "event {place}");
}

#[test]
fn a_tick_saves_what_enter_set(rt: HostRuntime) -> Result<(), Fail> {
    let lines = [
        Line::Make(THREAD),
        Line::Make(Call::Init { e: 0 }),
        Line::SetReg(10, 5),
        Line::Make(ENTER),
        Line::SetReg(11, 5),
        Line::Tick,
        Line::Make(ENTER),
        Line::Tick,
    ];
    let finished = run(rt.alloc(), &lines)?;
    let mut saved = [0; 33];
    saved[0] = 65536;
    saved[2] = 77;
    saved[32] = 9223372036854775813;
    for (place, something_saved) in [(21, 0), (23, 1)] {
        saved[10] = something_saved;
        expect_saved(&rt, &finished, place, saved);
    }
    Ok(())
}
