//! How much there is of each thing, and how much a core may log.

/// How many bytes a page has.
pub const PAGE_BYTES: u64 = 4096;

/// How many words of 64 bits a page has.
pub const PAGE_WORDS: usize = 512;

/// How many enclave slots there are.
pub const SLOTS: usize = 8;

/// How many thread slots there are.
pub const THREADS: usize = 16;

/// How many cores a machine has at the most.
pub const MOST_CORES: usize = 16;

/// How many regions a machine has at the most.
pub const MOST_REGIONS: usize = 64;

/// How many pages DRAM has at the most.
pub const MOST_PAGES: usize = 1024;

/// The first address past those that an enclave may have.
pub const ADDRESS_END: u64 = 1 << 38;

/// How many events a core may log.
pub const EVENT_BUDGET: u32 = 16384;

/// How many answers a core may be given: the words of its looks and loads.
pub const ANSWER_BUDGET: usize = 1_048_576;

/// How many events must be left before a line or a turn.
pub const LINE_EVENTS: u32 = 80;

/// How many answers must be left before a line or a turn.
pub const LINE_ANSWERS: usize = 600;

/// The cause that an exit by a tick saves.
pub const TICK_CAUSE: u64 = 9223372036854775813;
