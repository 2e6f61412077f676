//! What a run leaves that its report does not tell, on machines that are larger than the plain one: the
//! words of DRAM, and the words that loads gave the core. Words and places are worked out by hand; the
//! measurement is that of another program, which hashes as the monitor's rules say.

use crate::tests::repeated;
use hist::{Event, Finished, Why};
use mon_types::{Config, Image, Items, Start};
use script_read::parse_script;
use solo::solo;
use std::alloc::{AllocError, Global};
use std::process::Abort;
use std::test::Fail;

/// The measurement of an enclave of `TWINS`.
const MEASURE: [u64; 4] = [
    3113051963822778714,
    2761982930798163142,
    370711500173530415,
    18329068154568915154,
];

/// Row `twin-enclaves`.
const TWINS: &str = "\
block 2
block 3
block 4
block 5
flush
free 2
free 3
free 4
free 5
create 0 65536 16384
assign 2 0
assign 3 0
assign 4 0
assign 5 0
load_table 0 0 2 2
load_table 0 65536 1 3
load_table 0 65536 0 4
load_page 0 65536 5 1 5
load_thread 0 0 65536 0
init 0
block 6
block 7
block 8
block 9
flush
free 6
free 7
free 8
free 9
create 1 65536 16384
assign 6 1
assign 7 1
assign 8 1
assign 9 1
load_table 1 0 2 6
load_table 1 65536 1 7
load_table 1 65536 0 8
load_page 1 65536 9 1 5
load_thread 1 1 65536 0
init 1
";

/// The first of the twins, with loads that are refused before and after those that are not.
const REFUSED: &str = "\
block 2
block 3
block 4
block 5
flush
free 2
free 3
free 4
free 5
create 0 65536 16384
assign 2 0
assign 3 0
assign 4 0
assign 5 0
load_page 0 65536 5 1 5 # no root: takes no answer
load_table 0 0 2 2
load_page 0 65536 5 1 5 # no table of level 1: answer 0
load_table 0 65536 1 3  # answer 1
load_page 0 65536 5 1 5 # no table of level 0: answers 2 and 3
load_table 0 65536 0 4  # answers 4 and 5
load_page 0 65536 5 2 5 # page 2 is the enclave's: none
load_page 0 65536 5 1 5 # answers 6 to 8, and the page from 9 on
load_page 0 69632 5 1 5 # page 5 is taken: none
reserve 0 65536 12 3    # a page is there: answers 521 to 523
load_thread 0 0 65536 0
init 0
";

/// Row `reserved-page`: page 12 is reserved, and stored to once the enclave has accepted its region.
const RESERVED: &str = "\
block 2
block 3
block 4
block 5
flush
free 2
free 3
free 4
free 5
create 0 65536 16384
assign 2 0
assign 3 0
assign 4 0
assign 5 0
load_table 0 0 2 2
load_table 0 65536 1 3
load_table 0 65536 0 4
load_page 0 65536 5 1 5
reserve 0 69632 12 3
load_thread 0 0 65536 0
init 0
enter 0 0
load 69632
block 12
flush
free 12
assign 12 0
enter 0 0
accept_region 12
store 69632 7
exit
";

/// Runs a script on a machine with one core whose memory holds zeros.
fn run_on(
    rt: &impl Abort,
    alloc: Global,
    config: Option<Config>,
    script: &[u8],
) -> Result<Finished, Fail> {
    let config = config.ok_or("no such machine")?;
    assert!(rt; config.cores() == 1);
    let script = parse_script(alloc, script, Some(1))?;
    let mut starts = Items::new(alloc);
    starts.push(Start {
        pc: 0x8000_0000,
        sp: 0,
    })?;
    let image = Image {
        config,
        starts,
        segments: Items::new(alloc),
    };
    Ok(solo(alloc, &image, script)?)
}

/// The word that stands at a place, where the others are 0.
fn word_at(stored: &[(usize, u64)], place: usize) -> u64 {
    for (other, word) in stored {
        if *other == place {
            return *word;
        }
    }
    0
}

/// Checks that these words stand at their places, and else zeros.
fn check(rt: &impl Abort, words: &[u64], stored: &[(usize, u64)]) {
    for (place, word) in words.iter().enumerate() {
        assert_eq!(rt; *word, word_at(stored, place), "at {place}");
    }
}

/// The words that loads gave the core.
fn answers(finished: &Finished) -> &[u64] {
    match finished.answers.as_slice() {
        [] => &[],
        [answers, ..] => answers.as_slice(),
    }
}

/// Checks that the first enclaves have the measurement of the twins.
fn check_measures(rt: &impl Abort, finished: &Finished, count: usize) {
    for enclave in finished.enclaves.as_slice().iter().take(count) {
        assert_eq!(rt; enclave.measure, MEASURE);
    }
}

#[test]
fn twins_have_one_measurement(rt: HostRuntime) -> Result<(), Fail> {
    let config = Config::new(1, 16, 1, 0);
    let finished = run_on(&rt, rt.alloc(), config, TWINS.as_bytes())?;
    check_measures(&rt, &finished, 2);
    let stored = [
        (1024, 0x2000_0c01),
        (1536, 0x2000_1001),
        (2064, 0x2000_14db),
        (3072, 0x2000_1c01),
        (3584, 0x2000_2001),
        (4112, 0x2000_24db),
    ];
    check(&rt, finished.words.as_slice(), &stored);
    assert_eq!(rt; answers(&finished).len(), 1036);
    Ok(())
}

#[test]
fn a_reserved_page_is_stored_to(rt: HostRuntime) -> Result<(), Fail> {
    let config = Config::new(1, 16, 1, 0);
    let finished = run_on(&rt, rt.alloc(), config, RESERVED.as_bytes())?;
    let stored = [
        (1024, 0x2000_0c01),
        (1536, 0x2000_1001),
        (2064, 0x2000_14db),
        (2065, 0x2000_30d7),
        (6144, 7),
    ];
    check(&rt, finished.words.as_slice(), &stored);
    Ok(())
}

/// A load is given the entries up to the one that refuses it, and none where it is refused before. What
/// is refused stores nothing, and leaves the measurement.
#[test]
fn refused_loads_are_given_entries(rt: HostRuntime) -> Result<(), Fail> {
    let config = Config::new(1, 16, 1, 0);
    let finished = run_on(&rt, rt.alloc(), config, REFUSED.as_bytes())?;
    check_measures(&rt, &finished, 1);
    let stored = [
        (1024, 0x2000_0c01),
        (1536, 0x2000_1001),
        (2064, 0x2000_14db),
    ];
    check(&rt, finished.words.as_slice(), &stored);
    let given = [
        (2, 0x2000_0c01),
        (4, 0x2000_0c01),
        (6, 0x2000_0c01),
        (7, 0x2000_1001),
        (521, 0x2000_0c01),
        (522, 0x2000_1001),
        (523, 0x2000_14db),
    ];
    check(&rt, answers(&finished), &given);
    assert_eq!(rt; answers(&finished).len(), 524);
    Ok(())
}

/// Adds a line for each of regions 1 to 33.
fn add_lines(alloc: Global, text: &mut String, front: &str, back: &str) -> Result<(), AllocError> {
    for r in 1..34 {
        let line = format!(in alloc; "{front} {r}{back}\n")?;
        text.push_str(&line)?;
    }
    Ok(())
}

/// An enclave of 512 pages is loaded and deleted: 617 lines and 263,683 answers.
fn loaded_and_deleted(alloc: Global) -> Result<String, AllocError> {
    let mut text = String::new(alloc);
    add_lines(alloc, &mut text, "block", "")?;
    text.push_str("flush\n")?;
    add_lines(alloc, &mut text, "free", "")?;
    text.push_str("create 0 0 2097152\n")?;
    add_lines(alloc, &mut text, "assign", " 0")?;
    text.push_str("load_table 0 0 2 16\nload_table 0 0 1 17\nload_table 0 0 0 18\n")?;
    for i in 0..512u16 {
        let (va, page) = (4096 * u32::from(i), 19 + u32::from(i));
        let line = format!(in alloc; "load_page 0 {va} {page} 0 1\n")?;
        text.push_str(&line)?;
    }
    text.push_str("delete 0\n")?;
    Ok(text)
}

/// Checks that the last of 2,455 events is a limit at the 500th load_page of the fourth round.
fn check_stop(rt: &impl Abort, events: &[Event]) {
    let limit = Event::Stop {
        line: 3 * 617 + 104 + 500,
        why: Why::Limit,
    };
    assert_eq!(rt; events.len(), 2455);
    assert_eq!(rt; events.last().copied(), Some(limit));
}

/// Before the 500th load_page of the fourth round fewer than 600 of 1,048,576 answers are left.
#[test]
fn answers_run_out(rt: HostRuntime) -> Result<(), Fail> {
    let alloc = rt.alloc();
    let script = repeated(alloc, &loaded_and_deleted(alloc)?, 4)?;
    let finished = run_on(&rt, alloc, Config::new(1, 64, 16, 4), &script)?;
    assert_eq!(rt; answers(&finished).len(), 3 * 263_683 + 3 + 499 * 515);
    for log in finished.logs.as_slice() {
        check_stop(&rt, log.events());
    }
    Ok(())
}
