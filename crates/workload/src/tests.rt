//! Lines that were worked out apart from this code.

use crate::{LINES, workload};
use mon_types::{Call, Line, OS_WORD, Script};
use std::process::Abort;
use std::test::Fail;

/// `assign 7 os`.
const ASSIGN_7: Line = Line::Make(Call::Assign { r: 7, to: OS_WORD });

/// Checks that a script has `LINES` lines of a core, and what one of them is.
fn check_line(rt: &impl Abort, script: &Script, core: usize, line: usize, want: Line) {
    let cores = script.cores.as_slice();
    assert!(rt; core < cores.len());
    let lines = cores[core].as_slice();
    assert_eq!(rt; lines.len(), LINES);
    assert!(rt; line < lines.len());
    assert_eq!(rt; lines[line], want, "line {line} of core {core}");
}

#[test]
fn workload_first_lines(rt: HostRuntime) -> Result<(), Fail> {
    let script = workload(rt.alloc(), 0, 2)?;
    assert_eq!(rt; script.cores.len(), 2);
    check_line(&rt, &script, 0, 0, Line::LoadWord(2147491840));
    check_line(&rt, &script, 0, 3, ASSIGN_7);
    check_line(&rt, &script, 0, 4, Line::Make(Call::Flush));
    check_line(&rt, &script, 0, 5, Line::Make(Call::Free { r: 5 }));
    check_line(&rt, &script, 0, 999, Line::Make(Call::Free { r: 6 }));
    check_line(&rt, &script, 1, 0, Line::Make(Call::RegionInfo { r: 4 }));
    check_line(&rt, &script, 1, 1, Line::Make(Call::Block { r: 6 }));
    Ok(())
}

#[test]
fn number_and_core_wrap(rt: HostRuntime) -> Result<(), Fail> {
    let script = workload(rt.alloc(), u64::MAX, 16)?;
    assert_eq!(rt; script.cores.len(), 16);
    check_line(&rt, &script, 0, 0, Line::Make(Call::Block { r: 1 }));
    check_line(&rt, &script, 1, 0, Line::LoadWord(2147491840));
    check_line(&rt, &script, 15, 0, ASSIGN_7);
    check_line(&rt, &script, 15, 999, Line::Make(Call::Free { r: 5 }));
    Ok(())
}
