//! What a pte is.

ghost use Rattle.std.specs.Prelude.{◌≡◌, ◌<◌, ◌≤◌, ◌^◌, not, ◌&&◌};
ghost use Rattle.sv39_pte.specs.Pte.{ppn_of, is_invalid, is_pointer, pointer_kind, is_of_other_mode, is_forbidden, is_misaligned, is_untouched, leaf_kind, classified, HasFrame};

use mon_types::{Mode, has_bit};

/// What an access does.
#[derive(Clone, Copy, Debug, PartialEq, Eq)]
pub enum Access {
    Fetch,
    Load,
    Store,
}

/// What a pte is for an access.
#[derive(Clone, Copy, Debug, PartialEq, Eq)]
pub enum Kind {
    /// It leads to the table of the next level, which has this page frame number.
    Pointer {
        ppn: u64,
    },
    /// It leads to memory from this page frame number on, which later accesses may use so.
    Leaf {
        ppn: u64,
        load: bool,
        store: bool,
        fetch: bool,
    },
    /// The access has a page fault.
    Fault,
}

const VALID: u8 = 0;

const READ: u8 = 1;

const WRITE: u8 = 2;

const EXECUTE: u8 = 3;

const USER: u8 = 4;

const ACCESSED: u8 = 6;

const DIRTY: u8 = 7;

/// The page frame number of a pte, bits 53 to 10.
pub fn ppn_of(pte: u64) -> u64
    ensures ppn { result ≡ ppn_of pte }
    ensures fits { result < 2 ^ 44 }
{
    (pte >> 10) % (1 << 44)
}

fn is_invalid(pte: u64) -> bool
    ensures { result ≡ is_invalid pte }
{
    let writes_alone = has_bit(pte, WRITE) && !has_bit(pte, READ);
    !has_bit(pte, VALID) || writes_alone || pte >> 54 != 0
}

fn is_pointer(pte: u64) -> bool
    ensures { result ≡ is_pointer pte }
{
    !has_bit(pte, READ) && !has_bit(pte, EXECUTE)
}

/// What a valid pte without R and X is.
fn classify_pointer(pte: u64, level: u8) -> Kind
    ensures { result ≡ pointer_kind pte level }
{
    if level == 0 || has_bit(pte, USER) || has_bit(pte, ACCESSED) || has_bit(pte, DIRTY) {
        Kind::Fault
    } else {
        Kind::Pointer { ppn: ppn_of(pte) }
    }
}

/// Whether a leaf is there for the mode: one of user mode for enclaves alone, and no other for them.
fn serves_mode(pte: u64, mode: Mode) -> bool
    ensures { result ≡ not (is_of_other_mode pte mode) }
{
    match mode {
        Mode::Os => !has_bit(pte, USER),
        Mode::Inside { .. } => has_bit(pte, USER),
    }
}

/// Whether a leaf lets the access happen, with A, and for a store D, set before.
fn permits(pte: u64, access: Access) -> bool
    ensures { result ≡ (not (is_forbidden pte access) && not (is_untouched pte access)) }
{
    has_bit(pte, ACCESSED)
        && match access {
            Access::Fetch => has_bit(pte, EXECUTE),
            Access::Load => has_bit(pte, READ),
            Access::Store => has_bit(pte, WRITE) && has_bit(pte, DIRTY),
        }
}

/// Whether a leaf of this level begins at a page of its size.
fn is_aligned(pte: u64, level: u8) -> bool
    requires { level ≤ 2 }
    ensures { result ≡ not (is_misaligned pte level) }
{
    ppn_of(pte) % (1 << (9 * level)) == 0
}

/// What a pte in a table of this level, 2, 1 or 0, is for an access in a mode.
pub fn classify(pte: u64, level: u8, access: Access, mode: Mode) -> Kind
    requires { level ≤ 2 }
    ensures kind { result ≡ classified pte level access mode }
    ensures frame { HasFrame result }
{
    if is_invalid(pte) {
        return Kind::Fault;
    }
    if is_pointer(pte) {
        return classify_pointer(pte, level);
    }
    if !serves_mode(pte, mode) || !permits(pte, access) || !is_aligned(pte, level) {
        return Kind::Fault;
    }
    Kind::Leaf {
        ppn: ppn_of(pte),
        load: has_bit(pte, READ),
        store: has_bit(pte, WRITE) && has_bit(pte, DIRTY),
        fetch: has_bit(pte, EXECUTE),
    }
}
