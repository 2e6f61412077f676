//! Where ptes stand and lead, and those that the monitor writes.

ghost use Rattle.std.specs.Prelude.{◌≡◌, ◌<◌, ◌≤◌, IfSome};
ghost use Rattle.mon_types.specs.Shape.{page_total};
ghost use Rattle.sv39_pte.specs.Tables.{pte_place, leads_to_table, table_led_to, pointer_pte, leaf_pte};

use crate::pte::ppn_of;
use dram_map::{first_word, frame_of, page_of_frame};
use mon_types::{Config, PAGE_WORDS};

/// The number of the word of DRAM in which an address's pte stands, for a table of this level, 2, 1 or 0,
/// on this page.
pub fn pte_place(page: u16, level: u8, va: u64) -> u64
    requires { level ≤ 2 }
    ensures { result ≡ pte_place page level va }
{
    first_word(page) + (va >> (12 + 9 * level)) % PAGE_WORDS as u64
}

/// The page of DRAM to which a pte leads; None where it leads to none. Only its page frame number is
/// looked at.
pub fn table_led_to(config: &Config, pte: u64) -> Option<u16>
    ensures page { result ≡ table_led_to config.now pte }
    ensures within { IfSome result (λ page. page < page_total config.now) }
{
    page_of_frame(config, ppn_of(pte))
}

/// Whether a pte leads to a page of DRAM.
pub fn leads_to_table(config: &Config, pte: u64) -> bool
    ensures { result ≡ leads_to_table config.now pte }
{
    table_led_to(config, pte).is_some()
}

/// The pte that leads to the table on a page.
pub fn pointer_pte(page: u16) -> u64
    ensures { result ≡ pointer_pte page }
{
    frame_of(page) * 1024 + 1
}

/// The pte of a leaf on a page, for user mode, with A and D set. The permissions are R (1), RW (3), X (4),
/// RX (5) or RWX (7).
pub fn leaf_pte(page: u16, perms: u64) -> u64
    requires { perms < 8 }
    ensures { result ≡ leaf_pte page perms }
{
    frame_of(page) * 1024 + 0xD1 + 2 * perms
}
