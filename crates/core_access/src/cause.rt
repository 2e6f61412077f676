//! The causes of traps.

ghost use Rattle.std.specs.Prelude.{◌≡◌, ◌<◌};
ghost use Rattle.core_access.specs.Causes.{misaligned, access_fault, page_fault, is_aligned};

use sv39_pte::Access;

/// The cause of the trap of a word that is no instruction, or none for the mode. Its value is the word.
pub const ILLEGAL_INSTRUCTION: u64 = 2;

/// The cause of the trap of an access to an address that is no multiple of its size: 0, 4 or 6. Its value is
/// the address.
pub fn misaligned(access: Access) -> u64
    ensures { result ≡ misaligned access }
{
    match access {
        Access::Fetch => 0,
        Access::Load => 4,
        Access::Store => 6,
    }
}

/// The cause of the trap of an access that leads outside DRAM, or to a region at which the look is not good:
/// 1, 5 or 7. Its value is the virtual address.
pub fn access_fault(access: Access) -> u64
    ensures { result ≡ access_fault access }
{
    match access {
        Access::Fetch => 1,
        Access::Load => 5,
        Access::Store => 7,
    }
}

/// The cause of the trap of an access whose walk ends in a page fault: 12, 13 or 15. Its value is the virtual
/// address.
pub fn page_fault(access: Access) -> u64
    ensures { result ≡ page_fault access }
{
    match access {
        Access::Fetch => 12,
        Access::Load => 13,
        Access::Store => 15,
    }
}

/// Whether an address is a multiple of a size in bytes.
pub fn is_aligned(va: u64, size: u8) -> bool
    requires { 0 < size }
    ensures { result ≡ is_aligned va size }
{
    va % u64::from(size) == 0
}
