//! The page-table entries (ptes) on the path of a call that loads, as they are read from the root down.

ghost use Rattle.std.specs.Prelude.{◌≡◌, ◌≤◌};
ghost use Rattle.mon_enclaves.specs.ByWords.{table_path, words_fit};
ghost use Rattle.mon_enclaves.specs.LoadReply.{is_load, va_of, path_length};

use mon_types::{Call, Config};
use sv39_pte::leads_to_table;

/// How many ptes the path of a page or a reserved page has.
pub const LEAF_PATH: u8 = 3;

/// How many ptes the path of a table of this level has: the one that is to lead to it is the last.
pub fn path_of_table(level: u64) -> u8
    ensures length { result ≡ table_path level }
    ensures few { result ≤ 2 }
{
    match level {
        2 => 0,
        1 => 1,
        _ => 2,
    }
}

/// Whether the call loads an enclave: load_table, load_page or reserve.
pub fn is_load(call: &Call) -> bool
    ensures { result ≡ is_load call.now }
{
    matches!(
        call,
        Call::LoadTable { .. } | Call::LoadPage { .. } | Call::Reserve { .. }
    )
}

/// The address for which the call loads; for any other call 0.
pub fn address_of(call: &Call) -> u64
    ensures { result ≡ va_of call.now }
{
    match *call {
        Call::LoadTable { va, .. } | Call::LoadPage { va, .. } | Call::Reserve { va, .. } => va,
        _ => 0,
    }
}

/// How many ptes the path of a call that loads has; for any other call 0.
pub fn path_length(call: &Call) -> u8
    ensures length { result ≡ path_length call.now }
    ensures few { result ≤ 3 }
{
    match *call {
        Call::LoadTable { level, .. } => path_of_table(level),
        Call::LoadPage { .. } | Call::Reserve { .. } => LEAF_PATH,
        _ => 0,
    }
}

/// Whether the last pte read on a path of `path` ptes lets the call go on: at the path's end it is to be
/// 0, before the end it is to lead to a table. Where none was read yet, none is amiss.
pub fn last_fits(config: &Config, path: u8, words: &[u64]) -> bool
    ensures { result ≡ words_fit config.now path words.now }
{
    match words.last() {
        None => true,
        Some(&pte) => {
            if words.len() == usize::from(path) {
                pte == 0
            } else {
                leads_to_table(config, pte)
            }
        }
    }
}

/// The same of the path of a call that loads.
pub fn ptes_fit(config: &Config, call: &Call, words: &[u64]) -> bool
    ensures { result ≡ words_fit config.now (path_length call.now) words.now }
{
    last_fits(config, path_length(call), words)
}
