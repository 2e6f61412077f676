//! One translation.

ghost use Rattle.std.specs.Prelude.{◌≡◌};

use sv39_pte::Access;

/// The translation of a virtual page to a page of DRAM, and what accesses may do there.
#[derive(Clone, Copy, Debug, Default, PartialEq, Eq)]
pub struct Entry {
    pub vpn: u64,
    pub page: u16,
    pub load: bool,
    pub store: bool,
    pub fetch: bool,
}

impl Entry {
    ghost use Rattle.tlb.specs.Cache.{allows, serves};

    /// Whether it lets an access happen.
    fn allows(&self, access: Access) -> bool
        ensures { result ≡ allows self.now access }
    {
        match access {
            Access::Fetch => self.fetch,
            Access::Load => self.load,
            Access::Store => self.store,
        }
    }

    /// Whether it serves an access to a virtual page.
    pub fn serves(&self, vpn: u64, access: Access) -> bool
        ensures { result ≡ serves vpn access self.now }
    {
        self.vpn == vpn && self.allows(access)
    }
}
