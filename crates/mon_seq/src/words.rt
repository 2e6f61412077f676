//! The page-table entries (ptes) on an address's path, from the items that were loaded.

ghost use Rattle.std.specs.Prelude.{◌≡◌, ◌<◌};
ghost use Rattle.mon_model.specs.Loading.{served_part, is_there_for, is_table_1, is_table_0, is_leaf};
ghost use Rattle.mon_enclaves.specs.FromItems.{table_1_for, table_0_for, leaf_for, pte_of_table, pte_of_leaf, table_words, leaf_words};

use arrayvec::ArrayVec;
use mon_types::{Loaded, LoadedKind};
use sv39_pte::{leaf_pte, pointer_pte};

/// The part of an address that an item of this kind serves.
fn part_served(kind: LoadedKind, va: u64) -> u64
    ensures { result ≡ served_part kind va }
{
    match kind {
        LoadedKind::Table2 => 0,
        LoadedKind::Table1 => va >> 30,
        LoadedKind::Table0 => va >> 21,
        LoadedKind::Page | LoadedKind::Reserved => va >> 12,
    }
}

/// Whether the item is there for the address.
fn serves(item: &Loaded, va: u64) -> bool
    ensures { result ≡ is_there_for va item.now }
{
    part_served(item.kind, item.va) == part_served(item.kind, va)
}

fn is_table_1(kind: LoadedKind) -> bool
    ensures { result ≡ is_table_1 kind }
{
    matches!(kind, LoadedKind::Table1)
}

fn is_table_0(kind: LoadedKind) -> bool
    ensures { result ≡ is_table_0 kind }
{
    matches!(kind, LoadedKind::Table0)
}

fn is_leaf(kind: LoadedKind) -> bool
    ensures { result ≡ is_leaf kind }
{
    matches!(kind, LoadedKind::Page | LoadedKind::Reserved)
}

/// The table of level 1 that is there for an address.
fn table_1_of(items: &[Loaded], va: u64) -> Option<Loaded>
    ensures { result ≡ table_1_for va items.now }
{
    items
        .iter()
        .find(|item| is_table_1(item.kind) && serves(item, va))
        .copied()
}

/// The table of level 0 that is there for an address.
fn table_0_of(items: &[Loaded], va: u64) -> Option<Loaded>
    ensures { result ≡ table_0_for va items.now }
{
    items
        .iter()
        .find(|item| is_table_0(item.kind) && serves(item, va))
        .copied()
}

/// The page or reserved page that is there for an address.
fn leaf_of(items: &[Loaded], va: u64) -> Option<Loaded>
    ensures { result ≡ leaf_for va items.now }
{
    items
        .iter()
        .find(|item| is_leaf(item.kind) && serves(item, va))
        .copied()
}

/// The pte that leads to a table, 0 where there is none.
fn pte_of_table(table: Option<Loaded>) -> u64
    ensures { result ≡ pte_of_table table }
{
    match table {
        None => 0,
        Some(item) => pointer_pte(item.page),
    }
}

/// The pte of a leaf without permissions, 0 where there is none.
fn pte_of_leaf(leaf: Option<Loaded>) -> u64
    ensures { result ≡ pte_of_leaf leaf 0 }
{
    match leaf {
        None => 0,
        Some(item) => leaf_pte(item.page, 0),
    }
}

/// All ptes that are read on the path of a table of this level.
pub fn words_of_table(items: &[Loaded], va: u64, level: u8) -> ArrayVec<u64, 3>
    ensures { result.items ≡ table_words items.now va level }
{
    let mut words = ArrayVec::new();
    if level == 2 {
        return words;
    }
    let first = table_1_of(items, va);
    words.push(pte_of_table(first));
    if level != 1 && first.is_some() {
        words.push(pte_of_table(table_0_of(items, va)));
    }
    words
}

/// All ptes that are read on the path of a page or a reserved page. Which permissions the leaf has does
/// not matter: only whether there is one.
pub fn words_of_leaf(items: &[Loaded], va: u64) -> ArrayVec<u64, 3>
    ensures { result.items ≡ leaf_words items.now va 0 }
{
    let mut words = ArrayVec::new();
    let first = table_1_of(items, va);
    words.push(pte_of_table(first));
    if first.is_some() {
        let second = table_0_of(items, va);
        words.push(pte_of_table(second));
        if second.is_some() {
            words.push(pte_of_leaf(leaf_of(items, va)));
        }
    }
    words
}
