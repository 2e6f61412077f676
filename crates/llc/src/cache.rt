//! The cache.

ghost use Rattle.std.specs.Prelude.{◌≡◌, ◌≤◌, ◌<◌, ◌+◌, ◌/◌, ◌++◌, ◌∷◌, [], ℕ, List, true, length, slice_set, IfOk, IsTrue, ◌↔◌, ◌^◌};
ghost use Rattle.dram_map.specs.Addresses.{is_in_dram};
ghost use Rattle.llc.specs.Colours.{line_bytes, set_count, set_of, tag_of, region_of};
ghost use Rattle.llc.specs.Hits.{IsHit, is_hit};
ghost use Rattle.llc.specs.Regions.{accesses_of};
ghost use Rattle.llc.specs.Sets.{Cache, StandsFor, has_tag, tags_at, touched};

use crate::cache_set::CacheSet;
use dram_map::page_of;
use mon_types::Config;
use std::alloc::{AllocError, Global};
use std::marker::Model;

/// How many bytes a line has.
pub const LINE_BYTES: u64 = 64;

/// How many sets a region has.
pub const REGION_SETS: usize = 64;

/// The coloured cache. Contracts see its configuration, its ways and the tags in each set, and say for
/// which accesses it stands.
#[derive(Debug, Drop)]
pub struct Llc {
    config: Config,
    ways: u8,
    sets: Vec<CacheSet>,
}

impl Model for Llc {
    ghost use Rattle.std.specs.Prelude.{◌≡◌, ◌≤◌, length};
    ghost use Rattle.llc.specs.Colours.{set_count};
    ghost use Rattle.llc.specs.Sets.{Cache};

    ghost Value = { Cache };

    ghost view = { λ c. record { shape = c.config; ways = c.ways; sets = c.sets.items } };

    ghost invariant = { λ c. (c.ways ≤ 16) × (length c.sets.items ≡ set_count c.config) };
}

impl Llc {
    /// An empty cache of so many lines in a set, 1 to 16.
    pub fn new(alloc: Global, config: Config, ways: u8) -> Result<Llc, AllocError>
        requires from { 1 ≤ ways }
        requires to { ways ≤ 16 }
        ensures shape { IfOk result (λ cache. cache.shape ≡ config) }
        ensures ways { IfOk result (λ cache. cache.ways ≡ ways) }
        ensures stands { IfOk result (λ cache. StandsFor cache []) }
    {
        Ok(Llc {
            config,
            ways,
            sets: empty_sets(alloc, &config)?,
        })
    }

    /// An access to a physical address in DRAM; whether it is a hit.
    pub fn access(&mut self, address: u64) -> bool
        requires { is_in_dram self.old.shape address ≡ true }
        // Where the cache stood for some accesses, it stands for them and this one now.
        ensures stands { (accesses : List ℕ) → StandsFor self.old accesses →
            StandsFor self.new (accesses ++ address ∷ []) }
        // The answer is whether this is a hit behind them,
        ensures exactly { (accesses : List ℕ) → StandsFor self.old accesses →
            IsTrue result ↔ IsHit self.old.shape self.old.ways (accesses ++ address ∷ []) (length accesses) }
        ensures answer { (accesses : List ℕ) → StandsFor self.old accesses →
            result ≡ is_hit self.old.shape self.old.ways accesses address }
        // and whether it is one behind those of its region alone.
        ensures own { (accesses : List ℕ) → StandsFor self.old accesses →
            result ≡ is_hit self.old.shape self.old.ways
            (accesses_of self.old.shape (region_of self.old.shape address) accesses) address }
        ensures shape { self.new.shape ≡ self.old.shape }
        ensures ways { self.new.ways ≡ self.old.ways }
    {
        let set = set_number(&self.config, address);
        let tag = (address / LINE_BYTES) as u32;
        touch_set(&mut self.sets, set, tag, self.ways)
    }
}

/// Sets that hold nothing, as many as the cache of a machine has.
fn empty_sets(alloc: Global, config: &Config) -> Result<Vec<CacheSet>, AllocError>
    ensures count { IfOk result (λ sets. length sets.items ≡ set_count config.now) }
    ensures empty { IfOk result (λ sets. (set : ℕ) → tags_at sets.items set ≡ []) }
{
    let mut sets = Vec::new(alloc);
    for _ in 0..REGION_SETS * usize::from(config.regions()) {
        sets.push(CacheSet::new())?;
    }
    Ok(sets)
}

/// The number of the set of an address in DRAM.
fn set_number(config: &Config, address: u64) -> usize
    requires { is_in_dram config.now address ≡ true }
    ensures number { result ≡ set_of config.now address }
    ensures within { result < set_count config.now }
    ensures tag { tag_of address < 2 ^ 32 }
{
    let line = address / LINE_BYTES % REGION_SETS as u64;
    REGION_SETS * usize::from(region_of(config, address)) + line as usize
}

/// The region of an address in DRAM.
pub fn region_of(config: &Config, address: u64) -> u8
    requires { is_in_dram config.now address ≡ true }
    ensures region { result ≡ region_of config.now address }
    ensures within { result < config.now.regions }
    ensures low { address < 2 ^ 32 }
{
    let page = page_of(config, address).unwrap();
    config.region_of(page)
}

fn touch_set(sets: &mut [CacheSet], set: usize, tag: u32, ways: u8) -> bool
    requires set { set < length sets.old }
    requires ways { ways ≤ 16 }
    ensures hit { result ≡ has_tag tag (tags_at sets.old set) }
    ensures tags { length (tags_at sets.old set) ≤ ways →
        sets.new ≡ slice_set sets.old set (touched ways tag (tags_at sets.old set)) }
{
    let touched = &mut sets[set];
    touched.touch(tag, ways)
}
