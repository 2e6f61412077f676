//! The script of a number.

ghost use Rattle.std.specs.Prelude.{◌≡◌, ◌≤◌, length, IfOk};
ghost use Rattle.std.specs.List.{AllByRecursion};
ghost use Rattle.workload.specs.Workload.{lines_of_core, lines_of_cores};
ghost use Rattle.workload.specs.Generated.{IsGenerated};

use crate::generator::Generator;
use mon_types::{Items, Line, Script};
use std::alloc::{AllocError, Global};

/// How many lines each core has.
pub const LINES: usize = 1000;

/// The lines of a core.
fn lines_of_core(alloc: Global, n: u64, core: u8) -> Result<Items<Line>, AllocError>
    ensures { IfOk result (λ lines. lines ≡ lines_of_core n core) }
{
    let mut lines = Vec::with_capacity(alloc, LINES)?;
    let mut generator = Generator::begin(n, core);
    for _ in 0..LINES {
        lines.push_reserved(generator.next_line());
    }
    Ok(Items::from_vec(lines))
}

/// The script that is generated for the number `n`, for so many cores. The lines of a core do not depend on how many
/// cores there are. The only error is the want of memory.
pub fn workload(alloc: Global, n: u64, cores: u8) -> Result<Script, AllocError>
    requires some { 1 ≤ cores }
    requires most { cores ≤ 16 }
    ensures script { IfOk result (λ s. s.cores ≡ lines_of_cores n cores) }
    ensures count { IfOk result (λ s. length s.cores ≡ cores) }
    ensures lines { IfOk result (λ s. AllByRecursion (λ lines. length lines ≡ LINES) s.cores) }
    ensures within { IfOk result (λ s. AllByRecursion (AllByRecursion IsGenerated) s.cores) }
{
    let mut lists = Vec::with_capacity(alloc, usize::from(cores))?;
    for core in 0..cores {
        let lines = lines_of_core(alloc, n, core)?;
        lists.push_reserved(lines);
    }
    Ok(Script {
        cores: Items::from_vec(lists),
    })
}
