//! The shared cache of a machine whose regions colour it, as a model that counts hits: lines of 64 bytes,
//! 64 sets for each region, 1 to 16 lines in a set, and the least recently used line is dropped.
//!
//! Accesses of two regions never meet in a set, so a region's hits depend on its own accesses alone.
#![tactic(auto)]

mod cache;
mod cache_set;
mod counting;
mod fault;
mod laws;
mod line;
mod print;
mod read;
mod run;
mod tally;
#[cfg(test)]
mod tests;
#[cfg(test)]
mod text_tests;
mod trace;

pub use cache::Llc;
pub use counting::tallies;
pub use fault::{TraceError, TraceFault};
pub use laws::{hits_are_computed, regions_apart};
pub use print::print_tallies;
pub use read::{LIMIT, parse_trace, read_trace};
pub use run::hits;
pub use tally::Tally;
pub use trace::Trace;
