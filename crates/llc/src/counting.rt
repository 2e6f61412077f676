//! What is counted of a whole trace, region by region.

ghost use Rattle.std.specs.Prelude.{◌≡◌, ◌<◌, ◌+◌, ◌^◌, map, length, slice_set, IfOk};
ghost use Rattle.std.specs.List.{range_with_len};
ghost use Rattle.llc.specs.Answers.{CanRun};
ghost use Rattle.llc.specs.Tallies.{tallies_of, uncounted, counted, tally_at};

use crate::cache::{Llc, region_of};
use crate::tally::Tally;
use crate::trace::Trace;
use mon_types::Config;
use std::alloc::{AllocError, Global};

/// Counts the accesses and the hits of each region of a trace, one tally for each region in the order of their
/// numbers. The ways are 1 to 16, and each address is in DRAM. An access takes no memory.
pub fn tallies(alloc: Global, trace: &Trace) -> Result<Vec<Tally>, AllocError>
    requires { CanRun trace.now }
    ensures { IfOk result (λ tallies. tallies.items ≡ tallies_of trace.now.config trace.now.ways trace.now.addresses) }
{
    let mut cache = Llc::new(alloc, trace.config, trace.ways)?;
    let mut tallies = uncounted(alloc, &trace.config)?;
    for address in trace.addresses.as_slice() {
        let hit = cache.access(*address);
        count(
            &mut tallies,
            usize::from(region_of(&trace.config, *address)),
            hit,
        );
    }
    Ok(tallies)
}

/// A tally for each region, which counts nothing yet.
fn uncounted(alloc: Global, config: &Config) -> Result<Vec<Tally>, AllocError>
    ensures { IfOk result (λ tallies. tallies.items ≡ map uncounted (range_with_len 0 config.now.regions)) }
{
    let mut tallies = Vec::new(alloc);
    for region in 0..config.regions() {
        tallies.push(Tally {
            region,
            accesses: 0,
            hits: 0,
        })?;
    }
    Ok(tallies)
}

/// Counts an access of a region.
fn count(tallies: &mut [Tally], region: usize, hit: bool)
    requires place { region < length tallies.old }
    requires accesses { (tally_at tallies.old region).accesses + 1 < 2 ^ 64 }
    requires hits { (tally_at tallies.old region).hits + 1 < 2 ^ 64 }
    ensures { tallies.new ≡ slice_set tallies.old region (counted hit (tally_at tallies.old region)) }
{
    let tally = &mut tallies[region];
    tally.count(hit);
}
