//! A walk that is made one page-table entry (pte) after the other.

ghost use Rattle.std.specs.Prelude.{◌≡◌, ◌<◌, ◌≤◌, ◌^◌};
ghost use Rattle.sv39_pte.specs.Pte.{HasFrame};
ghost use Rattle.sv39_walk.specs.Relation.{is_canonical, pte_address, page_in_leaf};
ghost use Rattle.sv39_walk.specs.Walking.{IsWish, HasLevelBelow, first_state, begun, after_kind, answered};

use mon_types::{Mode, PAGE_BYTES, PAGE_WORDS, has_bit};
use std::marker::Model;
use sv39_pte::{Access, Kind, classify};

/// Where a walk stands.
#[derive(Clone, Copy, Debug, PartialEq, Eq)]
pub enum WalkState {
    /// It asks for the pte at this physical address.
    Wish {
        address: u64,
    },
    /// It found the address's page, which has this page frame number and which later accesses may use so.
    Found {
        page: u64,
        load: bool,
        store: bool,
        fetch: bool,
    },
    /// The access has a page fault.
    PageFault,
}

/// The walk of one access. Contracts see what is left of it.
#[derive(Clone, Copy, Debug, PartialEq, Eq)]
pub struct Walk {
    va: u64,
    access: Access,
    mode: Mode,
    /// Of the table whose pte is asked for, or was last.
    level: u8,
    state: WalkState,
}

impl Model for Walk {
    ghost use Rattle.std.specs.Prelude.{◌≤◌};
    ghost use Rattle.sv39_walk.specs.Walking.{Walking};

    ghost Value = { Walking };

    ghost view = { λ w. record { va = w.va; access = w.access; mode = w.mode; level = w.level; state = w.state } };

    ghost invariant = { λ w. w.level ≤ 2 };

    ghost inverse = { λ w. record { va = w.va; access = w.access; mode = w.mode; level = w.level; state = w.state } };
}

/// Whether a virtual address has a page at all: its upper bits equal bit 38.
fn is_canonical(va: u64) -> bool
    ensures { result ≡ is_canonical va }
{
    let upper = va >> 39;
    if has_bit(va, 38) {
        upper == (1 << 25) - 1
    } else {
        upper == 0
    }
}

/// The physical address of an address's pte, in the table of this level with this page frame number.
fn pte_address(frame: u64, level: u8, va: u64) -> u64
    requires level { level ≤ 2 }
    requires frame { frame < 2 ^ 44 }
    ensures { result ≡ pte_address frame level va }
{
    PAGE_BYTES * frame + 8 * ((va >> (12 + 9 * level)) % PAGE_WORDS as u64)
}

/// The page frame number of an address's page in a leaf of this level, with this page frame number.
fn page_in_leaf(ppn: u64, level: u8, va: u64) -> u64
    requires level { level ≤ 2 }
    requires ppn { ppn < 2 ^ 44 }
    ensures { result ≡ page_in_leaf ppn level va }
{
    let pages = 1 << (9 * level);
    ppn / pages * pages + va / PAGE_BYTES % pages
}

impl Walk {
    /// The walk of an access in a mode to a virtual address, from the root table with this page frame
    /// number.
    pub fn begin(root: u64, va: u64, access: Access, mode: Mode) -> Walk
        requires { root < 2 ^ 44 }
        ensures { result ≡ begun root va access mode }
    {
        let state = if is_canonical(va) {
            WalkState::Wish {
                address: pte_address(root, 2, va),
            }
        } else {
            WalkState::PageFault
        };
        Walk {
            va,
            access,
            mode,
            level: 2,
            state,
        }
    }

    /// Where the walk stands.
    pub fn state(&self) -> WalkState
        ensures { result ≡ self.now.state }
    {
        self.state
    }

    /// Goes on from a pte of this kind.
    fn follow(&mut self, kind: Kind)
        requires frame { HasFrame kind }
        requires below { HasLevelBelow kind self.old.level }
        ensures { self.new ≡ after_kind self.old kind }
    {
        match kind {
            Kind::Pointer { ppn } => {
                self.level -= 1;
                self.state = WalkState::Wish {
                    address: pte_address(ppn, self.level, self.va),
                };
            }
            Kind::Leaf {
                ppn,
                load,
                store,
                fetch,
            } => {
                self.state = WalkState::Found {
                    page: page_in_leaf(ppn, self.level, self.va),
                    load,
                    store,
                    fetch,
                };
            }
            Kind::Fault => self.state = WalkState::PageFault,
        }
    }

    /// Answers the pte that the walk asks for.
    pub fn answer(&mut self, pte: u64)
        requires { IsWish self.old.state }
        ensures { self.new ≡ answered self.old pte }
    {
        self.follow(classify(pte, self.level, self.access, self.mode));
    }
}
