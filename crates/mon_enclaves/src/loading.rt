//! What the calls that load an enclave answer.

ghost use Rattle.std.specs.Prelude.{◌≡◌, ◌<◌, ℕ, true, List};
ghost use Rattle.mon_types.specs.Shape.{is_shape, page_total, region_of_page};
ghost use Rattle.mon_types.specs.declared.enclave.Loaded.{Loaded};
ghost use Rattle.mon_types.specs.Bits.{has_bit};
ghost use Rattle.mon_model.specs.Loading.{StandInPages, is_next_page, in_range};
ghost use Rattle.mon_model.specs.EnclaveCalls.{table_fits, leaf_fits, is_os_owned, load_table_reply, load_page_reply, reserve_reply};
ghost use Rattle.mon_enclaves.specs.ByWords.{table_reply, page_reply, reserved_reply};
ghost use Rattle.mon_enclaves.specs.FromItems.{table_words, leaf_words};

use crate::path::{LEAF_PATH, last_fits, path_of_table};
use mon_types::{Config, Enclave, Owner, Region, Reply, Stage, has_bit};

/// Whether the page lies in a region of the enclave.
#[tactic(auto, using(mon_types::specs::LimitLaws::few_regions))]
fn owns_page(config: &Config, enclave: &Enclave, page: u16) -> bool
    requires { page < page_total config.now }
    ensures owned { result ≡ has_bit enclave.now.regions (region_of_page config.now page) }
    ensures valid { is_shape config.now ≡ true }
{
    let region = config.region_of(page);
    let regions = config.regions();
    prove!(region < regions && regions <= 64);
    has_bit(enclave.regions, region)
}

/// Whether the enclave is Loading, and the page is not below the next one that it may take.
fn may_take(enclave: &Enclave, page: u16) -> bool
    ensures { result ≡ is_next_page enclave.now page }
{
    enclave.stage == Stage::Loading && enclave.next_page <= page
}

/// Whether the address lies in the enclave's range.
fn holds_address(enclave: &Enclave, va: u64) -> bool
    ensures { result ≡ in_range enclave.now va }
{
    enclave.base <= va && va - enclave.base < enclave.size
}

/// Whether the enclave's record has a place for a table of this level.
fn has_room_for_table(enclave: &Enclave, va: u64, level: u8) -> bool
    ensures { result ≡ table_fits enclave.now va level }
{
    if level == 2 {
        enclave.root.is_none()
    } else {
        has_room_for_leaf(enclave, va)
    }
}

/// Whether the enclave's record has a place for a page.
fn has_room_for_leaf(enclave: &Enclave, va: u64) -> bool
    ensures { result ≡ leaf_fits enclave.now va }
{
    holds_address(enclave, va) && enclave.root.is_some()
}

/// load_table of a page below N. `entries` are the ptes that were read so far on va's path, from the
/// root down: one for a table of level 1, two for level 0, none for level 2; the last decides.
///
/// InvalidState where the enclave is not Loading, or the page is below the next one or in no region of
/// the enclave; at level 2 where there is a root; at levels 1 and 0 where va lies outside the
/// enclave's range, there is no root, the last pte is before the path's end and leads to no table, or
/// is at its end and not 0. Ok where fewer are given than the path has means that the next
/// is to be read. By all the ptes that loaded items give, the reply is that of these items.
pub fn decide_table(
    config: &Config,
    enclave: &Enclave,
    va: u64,
    level: u8,
    page: u16,
    entries: &[u64],
) -> Reply
    requires { page < page_total config.now }
    ensures by_words { result ≡ table_reply config.now enclave.now va level page entries.now }
    ensures by_items { (items : List Loaded) → StandInPages config.now items → entries.now ≡ table_words items va level → result ≡ load_table_reply config.now enclave.now items va level page }
{
    let owned = owns_page(config, enclave, page);
    Reply::done_if(
        may_take(enclave, page)
            && owned
            && has_room_for_table(enclave, va, level)
            && last_fits(config, path_of_table(u64::from(level)), entries),
    )
}

fn is_owned_by_os(region: &Region) -> bool
    ensures { result ≡ is_os_owned region.now }
{
    matches!(
        region,
        Region::Owned {
            owner: Owner::Os,
            ..
        }
    )
}

/// load_page of a page below N. `source` is the region of the page that is copied. `entries` are the
/// ptes that were read so far on va's path, from the root down, three in all; the last decides.
///
/// InvalidState where the enclave is not Loading, the page is below the next one or in no region of
/// the enclave, va lies outside the enclave's range, or there is no root; then AccessDenied where the
/// source is not Owned by the OS; then InvalidState where the last pte is before the path's end and
/// leads to no table, or is at its end and not 0. Ok where fewer words are given than the path has
/// means that the next word is to be read. By all the ptes that loaded items give, the reply is that
/// of these items.
pub fn decide_page(
    config: &Config,
    enclave: &Enclave,
    va: u64,
    page: u16,
    source: &Region,
    entries: &[u64],
) -> Reply
    requires { page < page_total config.now }
    ensures by_words { result ≡ page_reply config.now enclave.now va page source.now entries.now }
    ensures by_items { (items : List Loaded) (perms : ℕ) → StandInPages config.now items → entries.now ≡ leaf_words items va perms → result ≡ load_page_reply config.now enclave.now items source.now va page }
{
    let owned = owns_page(config, enclave, page);
    if !may_take(enclave, page) || !owned || !has_room_for_leaf(enclave, va) {
        return Reply::InvalidState;
    }
    if !is_owned_by_os(source) {
        return Reply::AccessDenied;
    }
    Reply::done_if(last_fits(config, LEAF_PATH, entries))
}

/// reserve of a page below N. `entries` are as for load_page.
///
/// InvalidState where the enclave is not Loading, the page is below the next one or in a region of the
/// enclave, va lies outside the enclave's range, there is no root, or the last pte is before the
/// path's end and leads to no table, or is at its end and not 0. Ok as for load_page.
pub fn decide_reserve(
    config: &Config,
    enclave: &Enclave,
    va: u64,
    page: u16,
    entries: &[u64],
) -> Reply
    requires { page < page_total config.now }
    ensures by_words { result ≡ reserved_reply config.now enclave.now va page entries.now }
    ensures by_items { (items : List Loaded) (perms : ℕ) → StandInPages config.now items → entries.now ≡ leaf_words items va perms → result ≡ reserve_reply config.now enclave.now items va page }
{
    let owned = owns_page(config, enclave, page);
    Reply::done_if(
        may_take(enclave, page)
            && !owned
            && has_room_for_leaf(enclave, va)
            && last_fits(config, LEAF_PATH, entries),
    )
}
