//! A whole run.

ghost use Rattle.std.specs.Prelude.{◌≡◌, IfOk};
ghost use Rattle.hist.specs.Logged.{events_of};
ghost use Rattle.hist.specs.Legal.{Legal, HasLastTables};
ghost use Rattle.report.specs.Report.{HasAllCores};
ghost use Rattle.solo.specs.Solo.{solo_run};
ghost use Rattle.solo.specs.Given.{lines_of_core_0, IsOneScript, IsOneImage};

use crate::one_core::OneCore;
use hist::Finished;
use mon_types::{Image, Line, Script};
use std::alloc::{AllocError, Global};

/// The lines of core 0.
fn lines_of(script: &Script) -> &[Line]
    ensures { result.now ≡ lines_of_core_0 script.now.cores }
{
    match script.cores.as_slice() {
        [] => &[],
        [lines, ..] => lines.as_slice(),
    }
}

/// Runs a script on the machine of an image, which has one core, and answers what the run leaves. All
/// memory is taken before the first line; the only error is the want of it.
pub fn solo(alloc: Global, image: &Image, script: Script) -> Result<Finished, AllocError>
    requires image { IsOneImage image.now }
    requires script { IsOneScript script.cores }
    ensures run { IfOk result (λ f. f ≡ solo_run image.now (lines_of_core_0 script.cores)) }
    // Its log is a legal history, and its tables are those that the history leaves.
    ensures legal { IfOk result (λ f. Legal f.config (events_of f.logs)) }
    ensures tables { IfOk result HasLastTables }
    ensures cores { IfOk result HasAllCores }
{
    let mut machine = OneCore::new(alloc, image)?;
    let logs = Vec::with_capacity(alloc, 1)?;
    let answers = Vec::with_capacity(alloc, 1)?;
    machine.run(lines_of(&script));
    Ok(machine.finish(logs, answers))
}
