//! How large a machine is.

ghost use Rattle.std.specs.Prelude.{◌≡◌, ◌<◌, ◌≤◌, true, is_some, IfSome};
ghost use Rattle.mon_types.specs.Shape.{Shape, shape_of, is_core_count, is_region_count, is_page_count, is_shift, is_shape, page_total, region_of_page, plain};

use std::marker::Model;

/// How large a machine is: how many cores, regions and pages in a region it has, and by how many bits
/// a page number is shifted before it names a region. No value stands outside the limits of `new`.
#[derive(Clone, Copy, Debug, PartialEq, Eq)]
pub struct Config {
    cores: u8,
    regions: u8,
    pages: u8,
    shift: u8,
}

impl Model for Config {
    ghost use Rattle.std.specs.Prelude.{◌≡◌, true};
    ghost use Rattle.mon_types.specs.Shape.{Shape, shape_of, is_shape};

    ghost Value = { Shape };

    ghost view = { λ c. shape_of c.cores c.regions c.pages c.shift };

    ghost invariant = { λ c. is_shape (shape_of c.cores c.regions c.pages c.shift) ≡ true };

    ghost inverse = { λ s. record { cores = s.cores; regions = s.regions; pages = s.pages; shift = s.shift } };
}

fn is_cores(n: u8) -> bool
    ensures { result ≡ is_core_count n }
{
    1 <= n && n <= 16
}

fn is_regions(n: u8) -> bool
    ensures { result ≡ is_region_count n }
{
    n == 2 || n == 4 || n == 8 || n == 16 || n == 32 || n == 64
}

fn is_pages(n: u8) -> bool
    ensures { result ≡ is_page_count n }
{
    n == 1 || n == 2 || n == 4 || n == 8 || n == 16
}

fn divides(pages: u8, shift: u8) -> bool
    ensures { result ≡ is_shift pages shift }
{
    shift <= 4 && pages % (1 << shift) == 0
}

impl Config {
    /// A configuration of `cores` cores (1 to 16), `regions` regions (2, 4, 8, 16, 32 or 64) of
    /// `pages` pages (1, 2, 4, 8 or 16), with a `shift` whose power of two divides `pages`; None
    /// outside these limits.
    pub fn new(cores: u8, regions: u8, pages: u8, shift: u8) -> Option<Config>
        ensures some { IfSome result (λ c. c ≡ shape_of cores regions pages shift) }
        ensures exactly { is_some result ≡ is_shape (shape_of cores regions pages shift) }
    {
        if is_cores(cores) && is_regions(regions) && is_pages(pages) && divides(pages, shift) {
            Some(Config {
                cores,
                regions,
                pages,
                shift,
            })
        } else {
            None
        }
    }

    /// The plain machine: 8 regions of one page, and this many cores, 1 to 16.
    pub fn plain(cores: u8) -> Config
        requires some { 1 ≤ cores }
        requires most { cores ≤ 16 }
        ensures { result ≡ plain cores }
    {
        Config {
            cores,
            regions: 8,
            pages: 1,
            shift: 0,
        }
    }

    /// The number of cores.
    pub fn cores(&self) -> u8
        ensures cores { result ≡ self.now.cores }
        ensures valid { is_shape self.now ≡ true }
    {
        self.cores
    }

    /// The number of regions.
    pub fn regions(&self) -> u8
        ensures regions { result ≡ self.now.regions }
        ensures valid { is_shape self.now ≡ true }
    {
        self.regions
    }

    /// The number of pages in a region.
    pub fn pages(&self) -> u8
        ensures pages { result ≡ self.now.pages }
        ensures valid { is_shape self.now ≡ true }
    {
        self.pages
    }

    /// By how many bits a page number is shifted before it names a region.
    pub fn shift(&self) -> u8
        ensures shift { result ≡ self.now.shift }
        ensures valid { is_shape self.now ≡ true }
    {
        self.shift
    }

    /// How many pages DRAM has.
    pub fn total_pages(&self) -> u16
        ensures { result ≡ page_total self.now }
    {
        u16::from(self.regions) * u16::from(self.pages)
    }

    /// The region of a page of DRAM.
    pub fn region_of(&self, page: u16) -> u8
        requires { page < page_total self.now }
        ensures region { result ≡ region_of_page self.now page }
        ensures within { result < self.now.regions }
    {
        ((page >> self.shift) % u16::from(self.regions)) as u8
    }
}
