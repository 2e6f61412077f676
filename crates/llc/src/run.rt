//! The hits of a whole trace.

ghost use Rattle.std.specs.Prelude.{◌≡◌, ◌≤◌, ℕ, List, true, All, length, vec_len, IfOk};
ghost use Rattle.dram_map.specs.Addresses.{is_in_dram};
ghost use Rattle.llc.specs.Hits.{AreHits, hits_of};
ghost use Rattle.llc.specs.Regions.{accesses_of, answers_of, region_hits};

use crate::cache::Llc;
use crate::trace::Trace;
use std::alloc::{AllocError, Global};

/// For each address of a trace, whether that access is a hit. The ways are 1 to 16, and each address is in
/// DRAM.
pub fn hits(alloc: Global, trace: &Trace) -> Result<Vec<bool>, AllocError>
    requires from { 1 ≤ trace.now.ways }
    requires to { trace.now.ways ≤ 16 }
    requires dram { All (λ a. is_in_dram trace.now.config a ≡ true) trace.now.addresses }
    // One answer for each address, at its place.
    ensures count { IfOk result (λ hits. vec_len hits ≡ length trace.now.addresses) }
    ensures exactly { IfOk result (λ hits. AreHits trace.now.config trace.now.ways trace.now.addresses hits.items) }
    ensures hits { IfOk result (λ hits. hits.items ≡ hits_of trace.now.config trace.now.ways trace.now.addresses) }
    // The answers at a region's accesses are those of its accesses alone.
    ensures own { IfOk result (λ hits. (region : ℕ) →
        answers_of trace.now.config region trace.now.addresses hits.items ≡
        hits_of trace.now.config trace.now.ways (accesses_of trace.now.config region trace.now.addresses)) }
    // And they are those of any other accesses that agree on the region's.
    ensures same { IfOk result (λ hits. (region : ℕ) (others : List ℕ) →
        accesses_of trace.now.config region trace.now.addresses ≡ accesses_of trace.now.config region others →
        answers_of trace.now.config region trace.now.addresses hits.items ≡
        region_hits trace.now.config trace.now.ways region others) }
{
    run(alloc, trace)
}

fn run(alloc: Global, trace: &Trace) -> Result<Vec<bool>, AllocError>
    requires from { 1 ≤ trace.now.ways }
    requires to { trace.now.ways ≤ 16 }
    requires dram { All (λ a. is_in_dram trace.now.config a ≡ true) trace.now.addresses }
    ensures count { IfOk result (λ hits. vec_len hits ≡ length trace.now.addresses) }
    ensures hits { IfOk result (λ hits. hits.items ≡ hits_of trace.now.config trace.now.ways trace.now.addresses) }
{
    let mut cache = Llc::new(alloc, trace.config, trace.ways)?;
    let mut hits = Vec::new(alloc);
    for address in trace.addresses.as_slice() {
        hits.push(cache.access(*address))?;
    }
    Ok(hits)
}
