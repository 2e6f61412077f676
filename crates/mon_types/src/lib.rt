//! The records of the monitor, its calls and replies, and the words that hold them.
//!
//! Every number here is this project's own: which objects exist, how calls and objects are numbered,
//! and how a record is packed into words.
#![tactic(auto)]

mod bits;
mod call;
mod cell;
mod config;
mod enclave;
mod enclave_row;
mod image;
mod items;
mod laws;
mod lock;
mod object;
mod region;
mod reply;
mod script;
mod sizes;
#[cfg(test)]
mod tests;
mod thread;
mod thread_row;
mod words;

pub use bits::{bit, has_bit, with_bit, without_bit};
pub use call::Call;
pub use cell::cell_of;
pub use config::Config;
pub use enclave::{Enclave, Loaded, LoadedKind, Mailbox, Stage};
pub use enclave_row::{enclave_of, enclave_words};
pub use image::{Image, Segment, Start};
pub use items::Items;
pub use laws::{readers_are_total, rows_are_wide, rows_read_back, within_keeps_records};
pub use lock::{pack_lock, unpack_lock};
pub use object::{ObjectId, Tried};
pub use region::{OS_WORD, Owner, Region, pack_at, pack_own, unpack_own};
pub use reply::Reply;
pub use script::{Line, Script, StepItem};
pub use sizes::{
    ADDRESS_END, ANSWER_BUDGET, EVENT_BUDGET, LINE_ANSWERS, LINE_EVENTS, MOST_CORES, MOST_PAGES,
    MOST_REGIONS, PAGE_BYTES, PAGE_WORDS, SLOTS, THREADS, TICK_CAUSE,
};
pub use thread::{Mode, Thread, ThreadState};
pub use thread_row::{thread_of, thread_words};
