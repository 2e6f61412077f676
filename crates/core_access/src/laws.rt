//! Laws of the parts of an access. No code here runs.

ghost use Rattle.core_access.specs.Routes.{AdmittedPaging, RangeIsLoaded};
ghost use Rattle.core_access.specs.Looks.{WordsTell};
ghost use Rattle.core_access.specs.Words.{PlacesAreAddresses};

/// What set_satp admits is 0, which is Bare, or translates by Sv39 from its root.
pub fn admitted_satp_is_bare_or_a_root()
    ensures { AdmittedPaging }
{}

/// The range of an enclave is the one in which the monitor loads its pages.
pub fn ranges_are_loaded()
    ensures { RangeIsLoaded }
{}

/// The own-word of a region tells a look what the region's record does.
pub fn own_words_tell()
    ensures { WordsTell }
{}

/// The place of a virtual address on a page is that of its physical address.
pub fn places_are_addresses()
    ensures { PlacesAreAddresses }
{}
