//! Physical addresses, words and frames of DRAM.

ghost use Rattle.std.specs.Prelude.{◌≡◌, ℕ, ◌<◌, nat_lt, if◌then◌else◌, Some, None, IfSome};
ghost use Rattle.mon_types.specs.Shape.{page_total};
ghost use Rattle.dram_map.specs.Addresses.{LiesIn, page_of, page_start, word_total, word_of, word_start, first_word, page_of_word, frame_of, page_of_frame};

use mon_types::{Config, PAGE_BYTES, PAGE_WORDS};

/// The physical address of DRAM's first byte.
pub const DRAM_START: u64 = 0x8000_0000;

/// The page frame number of DRAM's first page.
pub const FIRST_FRAME: u64 = 0x80000;

/// The number as that of a page; None where the machine has no such page.
fn page_numbered(config: &Config, page: u64) -> Option<u16>
    ensures page { result ≡ (if nat_lt page (page_total config.now) then Some page else None) }
    ensures within { IfSome result (λ page. page < page_total config.now) }
{
    if page < u64::from(config.total_pages()) {
        Some(page as u16)
    } else {
        None
    }
}

/// The page in which a physical address lies; None exactly outside DRAM.
pub fn page_of(config: &Config, address: u64) -> Option<u16>
    ensures page { result ≡ page_of config.now address }
    ensures lies { IfSome result (λ page. LiesIn page address) }
    ensures within { IfSome result (λ page. page < page_total config.now) }
    ensures only { (page : ℕ) → page < page_total config.now → LiesIn page address → result ≡ Some page }
{
    page_numbered(config, address.checked_sub(DRAM_START)? / PAGE_BYTES)
}

/// The physical address at which a page begins.
pub fn page_start(page: u16) -> u64
    ensures { result ≡ page_start page }
{
    DRAM_START + PAGE_BYTES * u64::from(page)
}

/// The number of the word that holds the byte at a physical address; None exactly outside DRAM.
pub fn word_of(config: &Config, address: u64) -> Option<u64>
    ensures word { result ≡ word_of config.now address }
    ensures within { IfSome result (λ word. word < word_total config.now) }
{
    let byte = address.checked_sub(DRAM_START)?;
    page_numbered(config, byte / PAGE_BYTES)?;
    Some(byte / 8)
}

/// The physical address of a word of DRAM.
pub fn word_start(config: &Config, word: u64) -> u64
    requires { word < word_total config.now }
    ensures { result ≡ word_start word }
{
    let words = PAGE_WORDS as u64 * u64::from(config.total_pages());
    prove!(word < words);
    DRAM_START + 8 * word
}

/// The number of a page's first word.
pub fn first_word(page: u16) -> u64
    ensures { result ≡ first_word page }
{
    PAGE_WORDS as u64 * u64::from(page)
}

/// The page of a word.
pub fn page_of_word(word: u64) -> u64
    ensures { result ≡ page_of_word word }
{
    word / PAGE_WORDS as u64
}

/// The page frame number of a page.
pub fn frame_of(page: u16) -> u64
    ensures { result ≡ frame_of page }
{
    FIRST_FRAME + u64::from(page)
}

/// The page of a page frame number; None where it is the number of no page of DRAM.
pub fn page_of_frame(config: &Config, frame: u64) -> Option<u16>
    ensures page { result ≡ page_of_frame config.now frame }
    ensures within { IfSome result (λ page. page < page_total config.now) }
{
    page_numbered(config, frame.checked_sub(FIRST_FRAME)?)
}
