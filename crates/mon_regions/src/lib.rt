//! The calls on regions: block, free, assign, flush, region_info and accept_region.
//!
//! For each call `decide_x` gives the reply from the records of the objects that the call tries, where
//! the call was not refused before any object was tried. `after_x` gives the records that the call
//! leaves, at its ticket, where `decide_x` answered Ok; region_info changes none.
#![tactic(auto)]

mod after;
mod decide;

pub use after::{after_accept_region, after_assign, after_block, after_flush, after_free};
pub use decide::{
    decide_accept_region, decide_assign, decide_block, decide_flush, decide_free,
    decide_region_info,
};
