//! What a core keeps of itself.

use core_access::Space;
use core_behaviour::Exit;
use core_context::Contexts;
use mon_types::{Config, Mode};
use tlb::Tlb;

/// How many events a core has logged, and how many answers it was given.
#[derive(Clone, Copy, Debug, PartialEq, Eq)]
pub struct Counts {
    pub events: u32,
    pub answers: u32,
}

/// A core, without its log and its answers.
#[derive(Debug, Drop)]
pub struct Own {
    pub config: Config,
    pub number: u8,
    /// Its pc and registers, and those of the OS, kept while it is inside an enclave.
    pub contexts: Contexts,
    pub satp: u64,
    /// The addresses and the root of the enclave that it is inside.
    pub space: Space,
    /// Whether a line of the script made the last Ok enter.
    pub by_line: bool,
    pub cache: Tlb,
    /// The exit that is pending, if one is.
    pub pending: Option<Exit>,
    /// For whom it runs.
    pub mode: Mode,
    /// How many calls it has made.
    pub serial: u32,
    pub counts: Counts,
}
