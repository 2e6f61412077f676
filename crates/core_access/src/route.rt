//! Who translates a virtual address.

ghost use Rattle.std.specs.Prelude.{◌≡◌};
ghost use Rattle.core_access.specs.Routes.{paging_of, HasRoot, space_of, is_inside, own_route, os_route, route_of};

use dram_map::frame_of;
use mon_types::{Enclave, Mode, Owner};

/// How virtual addresses are translated.
#[derive(Clone, Copy, Debug, PartialEq, Eq)]
pub enum Paging {
    /// A virtual address is the physical address, with all permissions.
    Bare,
    /// By a page walk from the table with this page frame number.
    Sv39 { root: u64 },
}

/// The addresses that an enclave translates by its own page tables: `size` bytes from `base` on, and the number
/// of the page with its root table.
#[derive(Clone, Copy, Debug, PartialEq, Eq)]
pub struct Space {
    pub base: u64,
    pub size: u64,
    pub root: u16,
}

/// Who translates a virtual address: by which tables, and who is to own them and the page that they lead to.
#[derive(Clone, Copy, Debug, PartialEq, Eq)]
pub struct Route {
    pub paging: Paging,
    pub owner: Owner,
}

/// How a satp translates: by Sv39 where its mode is 8, and Bare otherwise.
pub fn paging_of(satp: u64) -> Paging
    ensures paging { result ≡ paging_of satp }
    ensures root { HasRoot result }
{
    if satp >> 60 == 8 {
        Paging::Sv39 {
            root: satp % (1 << 44),
        }
    } else {
        Paging::Bare
    }
}

impl Space {
    /// Those of an enclave. Where it has no root, which never comes while a core is inside, the root is page 0.
    pub fn of(enclave: &Enclave) -> Space
        ensures { result ≡ space_of enclave.now }
    {
        Space {
            base: enclave.base,
            size: enclave.size,
            root: enclave.root.unwrap_or(0),
        }
    }

    /// Whether an address is one of them.
    pub fn contains(&self, va: u64) -> bool
        ensures { result ≡ is_inside self.now va }
    {
        self.base <= va && va - self.base < self.size
    }
}

/// By satp.
fn os_route(satp: u64) -> Route
    ensures route { result ≡ os_route satp }
    ensures root { HasRoot result.paging }
{
    Route {
        paging: paging_of(satp),
        owner: Owner::Os,
    }
}

/// By the page tables of the enclave in this slot.
fn own_route(enclave: u8, space: &Space) -> Route
    ensures route { result ≡ own_route enclave space.now }
    ensures root { HasRoot result.paging }
{
    Route {
        paging: Paging::Sv39 {
            root: frame_of(space.root),
        },
        owner: Owner::Enclave(enclave),
    }
}

impl Route {
    /// Who translates an address in a mode. `space` is that of the enclave that the core is inside, and is not
    /// looked at in OS mode.
    pub fn of(mode: Mode, space: &Space, satp: u64, va: u64) -> Route
        ensures route { result ≡ route_of mode space.now satp va }
        ensures root { HasRoot result.paging }
    {
        match mode {
            Mode::Inside { enclave, .. } if space.contains(va) => own_route(enclave, space),
            _ => os_route(satp),
        }
    }
}
