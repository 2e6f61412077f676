//! Enclave slots.

ghost use Rattle.std.specs.Prelude.{◌≡◌, ◌%◌, ◌^◌, ◌≤◌};
ghost use Rattle.mon_types.specs.Enclaves.{empty_enclave, enclave_within, root_within, stage_code};

use crate::config::Config;

/// How far the enclave of a slot has come.
#[derive(Clone, Copy, Debug, PartialEq, Eq)]
pub enum Stage {
    Empty,
    Loading,
    Initialized,
}

impl Stage {
    /// The number of the stage in words: 0 Empty, 1 Loading, 2 Initialized.
    pub fn code(self) -> u64
        ensures { result ≡ stage_code self }
    {
        match self {
            Stage::Empty => 0,
            Stage::Loading => 1,
            Stage::Initialized => 2,
        }
    }
}

/// A mailbox of an enclave. `from` is the sender's slot.
#[derive(Clone, Copy, Debug, PartialEq, Eq)]
pub enum Mailbox {
    Closed,
    Expecting {
        from: u8,
    },
    /// A message of four words, with the four words of its sender's measurement.
    Full {
        from: u8,
        words: [u64; 4],
        measure: [u64; 4],
    },
}

/// The record of an enclave slot. An empty slot's record has all numbers 0, no root and closed
/// mailboxes.
#[derive(Clone, Copy, Debug, PartialEq, Eq)]
pub struct Enclave {
    pub stage: Stage,
    /// The first virtual address of the enclave's range, in bytes.
    pub base: u64,
    /// The length of that range, in bytes.
    pub size: u64,
    /// The regions that the enclave owns, a bit for each.
    pub regions: u64,
    /// The page number of its root page table.
    pub root: Option<u16>,
    /// One more than the last page loaded or reserved, 0 at first.
    pub next_page: u16,
    /// How many thread slots belong to it.
    pub threads: u8,
    /// Its measurement: 32 bytes read little-endian, eight at a time.
    pub measure: [u64; 4],
    pub mail: [Mailbox; 2],
}

/// The set without its members from `count` (2 to 64) on.
fn low_bits(set: u64, count: u8) -> u64
    requires { count ≤ 64 }
    ensures { result ≡ set % 2 ^ count }
{
    if count == 64 { set } else { set % (1 << count) }
}

/// The root, if it is a page of this machine.
#[tactic(auto, unfolding(crate::specs::Enclaves::root_within))]
fn root_within(config: &Config, root: Option<u16>) -> Option<u16>
    ensures { result ≡ root_within config.now root }
{
    match root {
        Some(page) if page < config.total_pages() => Some(page),
        _ => None,
    }
}

impl Enclave {
    /// The record of a slot that holds no enclave.
    pub fn empty() -> Enclave
        ensures { result ≡ empty_enclave }
    {
        Enclave {
            stage: Stage::Empty,
            base: 0,
            size: 0,
            regions: 0,
            root: None,
            next_page: 0,
            threads: 0,
            measure: [0; 4],
            mail: [Mailbox::Closed; 2],
        }
    }

    /// The record without what is past the machine's end: the bits of the region set from its last region
    /// on, and a root that is no page of it.
    #[tactic(auto, using(crate::specs::LimitLaws::few_regions), unfolding(crate::specs::Enclaves::enclave_within))]
    pub fn within(&self, config: &Config) -> Enclave
        ensures { result ≡ enclave_within config.now self.now }
    {
        Enclave {
            regions: low_bits(self.regions, config.regions()),
            root: root_within(config, self.root),
            ..*self
        }
    }
}

impl Default for Enclave {
    ghost is_default = { λ e. e ≡ empty_enclave };

    fn default() -> Enclave {
        Enclave::empty()
    }
}

/// What an item of a loading enclave is: a page table of level 2, 1 or 0, a page, or a page whose
/// place is reserved for a region that the enclave is to accept later.
#[derive(Clone, Copy, Debug, PartialEq, Eq)]
pub enum LoadedKind {
    Table2,
    Table1,
    Table0,
    Page,
    Reserved,
}

/// An item that was loaded into an enclave: what it is, for which virtual address, and in which page
/// of DRAM it stands.
#[derive(Clone, Copy, Debug, PartialEq, Eq)]
pub struct Loaded {
    pub kind: LoadedKind,
    pub va: u64,
    pub page: u16,
}
