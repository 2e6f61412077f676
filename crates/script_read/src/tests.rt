//! Scripts that are read, and the fault of each that is not.

ghost use Rattle.std.specs.Prelude.{◌≤◌, IfSome};

use crate::{LIMIT, ScriptError, parse_script, read_script};
use mon_types::{Call, Line, OS_WORD};
use reader_answers::ParseError;
use sm_ports::MapDepot;
use std::alloc::{AllocError, Global};
use std::process::Abort;
use std::test::Fail;

/// The line of a script that has one.
fn only_line(alloc: Global, text: &[u8]) -> Option<Line> {
    let script = parse_script(alloc, text, None).ok()?;
    let [lines] = script.cores.as_slice() else {
        return None;
    };
    match lines.as_slice() {
        [line] => Some(*line),
        _ => None,
    }
}

/// What is wrong with a script; the empty text where nothing is.
fn fault(alloc: Global, text: &[u8]) -> Result<String, AllocError> {
    fault_for(alloc, text, None)
}

/// The same for a count of cores, or for none.
fn fault_for(alloc: Global, text: &[u8], cores: Option<u8>) -> Result<String, AllocError>
    requires { IfSome cores (λ count. 1 ≤ count) }
{
    match parse_script(alloc, text, cores) {
        Ok(_) => Ok(String::new(alloc)),
        Err(ParseError::Fault(fault)) => format!(in alloc; "{fault}"),
        Err(ParseError::Memory) => String::from_str(alloc, "no memory"),
    }
}

/// Checks what is wrong with a script for a count of cores, or for none; the empty text where nothing is.
fn check_fault(
    rt: &impl Abort,
    alloc: Global,
    text: &[u8],
    cores: Option<u8>,
    want: &str,
) -> Result<(), Fail>
    requires { IfSome cores (λ count. 1 ≤ count) }
{
    assert_eq!(rt; fault_for(alloc, text, cores)?.as_str(), want);
    Ok(())
}

/// Checks that a script has this one line.
fn check_line(rt: &impl Abort, alloc: Global, text: &[u8], line: Line) {
    assert_eq!(rt; only_line(alloc, text), Some(line));
}

/// Checks for how many cores a script has lists of lines.
fn check_lists(rt: &impl Abort, alloc: Global, text: &[u8], cores: Option<u8>, want: usize)
    requires { IfSome cores (λ count. 1 ≤ count) }
{
    let script = parse_script(alloc, text, cores).expect(rt, "a script");
    assert_eq!(rt; script.cores.len(), want);
}

#[test]
fn the_first_fault_is_named(rt: HostRuntime) -> Result<(), Fail> {
    let alloc = rt.alloc();
    for (text, want) in [
        (b"\nFlush".as_slice(), "script line 2 unknown word"),
        (b"aex", "script line 1 unknown word"),
        (b"flush \x80", "script line 1 unknown word"),
        (b"\x80 # run", "script line 1 unknown word"),
        (b"flush\r", "script line 1 unknown word"),
        (
            b"# no call\r\n\r\nblock\nfree",
            "script line 3 missing word",
        ),
        (b"assign os", "script line 1 missing word"),
        (b"flush 1\n", "script line 1 extra word"),
        (b"free x y", "script line 1 extra word"),
        (b"block os", "script line 1 bad number"),
        (b"assign os 1", "script line 1 bad number"),
        (b"block 0x", "script line 1 bad number"),
        (b"block 0X1", "script line 1 bad number"),
        (b"block 1f", "script line 1 bad number"),
        (b"block -1", "script line 1 bad number"),
        (b"block 18446744073709551616", "script line 1 bad number"),
        (b"block 0x10000000000000000", "script line 1 bad number"),
        (b"flush\nrun", "script line 2 missing word"),
        (b"reserve 1 2 x", "script line 1 missing word"),
        (b"send 1 2 3 4 5 6 x", "script line 1 extra word"),
        (b"accept os 1", "script line 1 bad number"),
        (b"ecall", "script line 1 missing word"),
        (b"ecall 1 2 3 4 5 6 7 x", "script line 1 extra word"),
        (b"ecall 3 1 os", "script line 1 bad number"),
        (b"tick x", "script line 1 extra word"),
        (b"pc", "script line 1 missing word"),
        (b"pc x 4", "script line 1 extra word"),
        (b"pc 2", "script line 1 bad number"),
        (b"reg x", "script line 1 missing word"),
        (b"reg 1 2 x", "script line 1 extra word"),
        (b"reg 0 1", "script line 1 bad number"),
        (b"reg 32 1", "script line 1 bad number"),
        (b"reg x1 1", "script line 1 bad number"),
    ] {
        check_fault(&rt, alloc, text, None, want)?;
    }
    Ok(())
}

#[test]
fn kinds_are_tested_in_order(rt: HostRuntime) -> Result<(), Fail> {
    let alloc = rt.alloc();
    for (text, want) in [
        (b"core".as_slice(), "script line 1 missing word"),
        (b"core 99 x", "script line 1 extra word"),
        (b"core os", "script line 1 bad number"),
        (b"core 18446744073709551616", "script line 1 bad number"),
        (b"core 16", "script line 1 bad core"),
        (b"core 256", "script line 1 bad core"),
        (b"core 0xffffffffffffffff", "script line 1 bad core"),
        (b"core \x80", "script line 1 unknown word"),
        (b"run 1 2", "script line 1 extra word"),
        (b"run x", "script line 1 bad number"),
        (b"run 18446744073709551616", "script line 1 bad number"),
        (b"load", "script line 1 missing word"),
        (b"load 1 2", "script line 1 extra word"),
        (b"load -1", "script line 1 bad number"),
        (b"store 1", "script line 1 missing word"),
        (b"store 1 2 3", "script line 1 extra word"),
        (b"store x 2", "script line 1 bad number"),
        (b"store 1 os", "script line 1 bad number"),
        (b"\n# one\ncore 16\nblok", "script line 3 bad core"),
    ] {
        check_fault(&rt, alloc, text, None, want)?;
    }
    Ok(())
}

#[test]
fn turns_are_counted_for_each_core(rt: HostRuntime) -> Result<(), Fail> {
    let alloc = rt.alloc();
    for (text, want) in [
        (b"run 1000000\nrun 0".as_slice(), ""),
        (b"run 999999\nrun 1", ""),
        (b"run 1000000\ncore 1\nrun 1000000", ""),
        (b"run 1000000\nrun 1", "script line 2 turns over"),
        (b"run 1000001", "script line 1 turns over"),
        (b"run 0xF4241", "script line 1 turns over"),
        (b"run 4294967296", "script line 1 turns over"),
        (b"run 18446744073709551615", "script line 1 turns over"),
        (
            b"run 1\nrun 18446744073709551615",
            "script line 2 turns over",
        ),
        (
            b"core 1\nrun 1000000\n\ncore 0\nrun 1000000\ncore 1\ntick\nrun 1",
            "script line 8 turns over",
        ),
        (b"run 1000001\nblok", "script line 1 turns over"),
        (b"blok\nrun 1000001", "script line 1 unknown word"),
    ] {
        check_fault(&rt, alloc, text, None, want)?;
    }
    Ok(())
}

#[test]
fn cores_are_below_their_count(rt: HostRuntime) -> Result<(), Fail> {
    let alloc = rt.alloc();
    for (text, cores, want) in [
        (b"core 0".as_slice(), Some(1), ""),
        (b"core 1", Some(1), "script line 1 bad core"),
        (b"core 2", Some(3), ""),
        (b"core 3", Some(3), "script line 1 bad core"),
        (b"core 20", Some(21), ""),
        (b"core 15", None, ""),
    ] {
        check_fault(&rt, alloc, text, cores, want)?;
    }
    Ok(())
}

#[test]
fn lines_go_to_the_core_that_is_named(rt: HostRuntime) -> Result<(), Fail> {
    let alloc = rt.alloc();
    let text = b"tick\ncore 2 # \x80\nrun 5\nload 0x1F\n\ncore 0\nflush\ncore 2\nstore 1 2\n";
    let script = parse_script(alloc, text, None).expect(&rt, "a script");
    let lists = script.cores.as_slice();
    assert_eq!(rt; lists.len(), 3);
    assert_eq!(rt;
        lists[0].as_slice(),
        [Line::Tick, Line::Make(Call::Flush)].as_slice()
    );
    assert!(rt; lists[1].is_empty());
    assert_eq!(rt;
        lists[2].as_slice(),
        [Line::Run(5), Line::LoadWord(31), Line::StoreWord(1, 2)].as_slice()
    );
    Ok(())
}

#[test]
fn each_core_has_a_list(rt: HostRuntime) -> Result<(), Fail> {
    let alloc = rt.alloc();
    for (text, cores, want) in [
        (b"".as_slice(), None, 1),
        (b"tick", None, 1),
        (b"core 0", None, 1),
        (b"core 15\ncore 3", None, 16),
        (b"", Some(4), 4),
        (b"core 1\ntick", Some(4), 4),
    ] {
        check_lists(&rt, alloc, text, cores, want);
    }
    Ok(())
}

#[test]
fn lines_are_read(rt: HostRuntime) -> Result<(), Fail> {
    let alloc = rt.alloc();
    let text =
        b"\tblock 0x0A # r10 \x80\r\n\n  # nothing\nfree 007\nassign\t1  os\r\nassign 0xfFfFfFfFfFfFfFfF 18446744073709551615\nflush#\nregion_info 0";
    let script = parse_script(alloc, text, Some(3)).expect(&rt, "a script");
    let lists = script.cores.as_slice();
    assert_eq!(rt; lists.len(), 3);
    assert_eq!(rt;
        lists[0].as_slice(),
        [
            Line::Make(Call::Block { r: 10 }),
            Line::Make(Call::Free { r: 7 }),
            Line::Make(Call::Assign { r: 1, to: OS_WORD }),
            Line::Make(Call::Assign {
                r: OS_WORD,
                to: OS_WORD
            }),
            Line::Make(Call::Flush),
            Line::Make(Call::RegionInfo { r: 0 }),
        ]
        .as_slice()
    );
    assert!(rt; lists[1].is_empty() && lists[2].is_empty());
    Ok(())
}

#[test]
fn calls_are_named(rt: HostRuntime) -> Result<(), Fail> {
    let alloc = rt.alloc();
    for (number, text) in [
        (1, b"block 1".as_slice()),
        (2, b"free 1"),
        (3, b"assign 1 2"),
        (4, b"flush"),
        (5, b"region_info 1"),
        (6, b"create 1 2 3"),
        (7, b"load_table 1 2 3 4"),
        (8, b"load_page 1 2 3 4 5"),
        (9, b"load_thread 1 2 3 4"),
        (10, b"init 1"),
        (11, b"delete_thread 1 2"),
        (12, b"delete 1"),
        (13, b"enter 1 2"),
        (14, b"exit"),
        (16, b"restore"),
        (17, b"accept 1 2"),
        (18, b"send 1 2 3 4 5 6"),
        (19, b"read 1"),
        (20, b"enclave_info 1"),
        (21, b"set_satp 1"),
        (22, b"accept_region 1"),
        (23, b"reserve 1 2 3 4"),
    ] {
        let call = Call::of_registers(number, [1, 2, 3, 4, 5, 6]);
        check_line(&rt, alloc, text, Line::Make(call));
    }
    Ok(())
}

#[test]
fn other_lines_are_read(rt: HostRuntime) -> Result<(), Fail> {
    let alloc = rt.alloc();
    let unknown = |number, args| Line::Make(Call::Unknown { number, args });
    for (text, line) in [
        (b"ecall 99".as_slice(), unknown(99, [0; 6])),
        (b"ecall 15 7", unknown(15, [7, 0, 0, 0, 0, 0])),
        (b"ecall 0 1 2 3 4 5 6", unknown(0, [1, 2, 3, 4, 5, 6])),
        (b"ecall 1 8 9 9 9 9 9", Line::Make(Call::Block { r: 8 })),
        (b"ecall 3 8", Line::Make(Call::Assign { r: 8, to: 0 })),
        (b"ecall 0xE", Line::Make(Call::Exit)),
        (
            b"set_satp 0x8000100000000000",
            Line::Make(Call::SetSatp {
                v: 0x8000_1000_0000_0000,
            }),
        ),
        (b"tick", Line::Tick),
        (b"run 0", Line::Run(0)),
        (b"run 0x0f4240", Line::Run(1_000_000)),
        (b"load 0", Line::LoadWord(0)),
        (b"load 18446744073709551615", Line::LoadWord(u64::MAX)),
        (
            b"store 0x80000008 0xffffffffffffffff",
            Line::StoreWord(0x8000_0008, u64::MAX),
        ),
        (b"pc 0x80000004", Line::SetPc(0x8000_0004)),
        (b"reg 1 0", Line::SetReg(1, 0)),
        (b"reg 31 0xffffffffffffffff", Line::SetReg(31, u64::MAX)),
    ] {
        check_line(&rt, alloc, text, line);
    }
    Ok(())
}

#[test]
fn the_limit_is_a_script(rt: HostRuntime) -> Result<(), Fail> {
    let alloc = rt.alloc();
    let mut text = vec![in alloc; b'\n'; LIMIT]?;
    assert_eq!(rt; fault(alloc, &text)?.as_str(), "");
    text.push(b'x')?;
    assert_eq!(rt; fault(alloc, &text)?.as_str(), "script too long");
    Ok(())
}

#[test]
fn files_are_read(rt: HostRuntime) -> Result<(), Fail> {
    let alloc = rt.alloc();
    let mut files = Vec::new(alloc);
    files.push((
        String::from_str(alloc, "one")?,
        Vec::from_slice(alloc, b"flush")?,
    ))?;
    files.push((
        String::from_str(alloc, "bad")?,
        Vec::from_slice(alloc, b"flash")?,
    ))?;
    let mut depot = MapDepot::new(files, Vec::new(alloc));
    let one = read_script(alloc, &mut depot, "one", None).expect(&rt, "a script");
    assert_eq!(rt; one.cores.len(), 1);
    let bad = read_script(alloc, &mut depot, "bad", None);
    assert!(rt; matches!(&bad, Err(ScriptError::Fault(_))));
    let none = read_script(alloc, &mut depot, "none", None);
    assert!(rt; matches!(&none, Err(ScriptError::Read(_))));
    Ok(())
}
