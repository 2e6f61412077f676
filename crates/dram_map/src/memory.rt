//! The words of DRAM.

ghost use Rattle.std.specs.Prelude.{◌≡◌, ◌+◌, ◌*◌, ◌≤◌, ◌<◌, length, IfOk};
ghost use Rattle.mon_types.specs.Shape.{page_total, region_of_page};
ghost use Rattle.mon_types.specs.Sizes.{page_words};
ghost use Rattle.dram_map.specs.Addresses.{first_word, word_total};
ghost use Rattle.dram_map.specs.Words.{word_at, word_put, zero_words, words_of_page, page_copied, page_cleared, pages_cleared, region_cleared};

use mon_types::{Config, Items, PAGE_WORDS};
use std::alloc::{AllocError, Global};
use std::marker::Model;

/// The words of DRAM, page after page. Contracts see the list of the words.
#[derive(Debug, Drop)]
pub struct Memory {
    words: Vec<u64>,
}

impl Model for Memory {
    ghost use Rattle.std.specs.Prelude.{ℕ, List};

    ghost Value = { List ℕ };

    ghost view = { λ m. m.words.items };
}

impl Memory {
    /// Zeros, as many as the machine has words.
    pub fn new(alloc: Global, config: &Config) -> Result<Memory, AllocError>
        ensures zeros { IfOk result (λ m. m ≡ zero_words config.now) }
        ensures few { page_total config.now < 65536 }
    {
        let pages = usize::from(config.total_pages());
        Ok(Memory {
            words: vec![in alloc; 0; PAGE_WORDS * pages]?,
        })
    }

    /// The word at a place, 0 past the end.
    pub fn word(&self, place: u64) -> u64
        ensures { result ≡ word_at self.now place }
    {
        self.words.get(place as usize).copied().unwrap_or(0)
    }

    /// The words of a page.
    pub fn page(&self, page: u16) -> &[u64; PAGE_WORDS]
        requires { first_word page + page_words ≤ length self.now }
        ensures { result.now ≡ words_of_page self.now page }
    {
        let begin = PAGE_WORDS * usize::from(page);
        self.words[begin..].first_chunk().unwrap()
    }

    /// Stores a word at a place, if there is such a place.
    pub fn put(&mut self, place: Option<u64>, value: u64)
        ensures { self.new ≡ word_put self.old place value }
    {
        if let Some(place) = place {
            if let Some(word) = self.words.get_mut(place as usize) {
                *word = value;
            }
        }
    }

    /// Stores the words of page `src` in a page.
    pub fn copy_page(&mut self, src: u16, page: u16)
        requires src { first_word src + page_words ≤ length self.old }
        requires page { first_word page + page_words ≤ length self.old }
        ensures { self.new ≡ page_copied self.old src page }
    {
        let begin = PAGE_WORDS * usize::from(src);
        self.words
            .copy_within(begin..begin + PAGE_WORDS, PAGE_WORDS * usize::from(page));
    }

    fn clear_page(&mut self, page: u16)
        requires { first_word page + page_words ≤ length self.old }
        ensures cleared { self.new ≡ page_cleared self.old page }
        ensures size { length self.new ≡ length self.old }
    {
        let begin = PAGE_WORDS * usize::from(page);
        self.words[begin..begin + PAGE_WORDS].copy_from_slice(&[0; PAGE_WORDS]);
    }

    /// Stores zeros in every page of region r.
    pub fn clear_region(&mut self, config: &Config, r: u64)
        requires { length self.old ≡ word_total config.now }
        ensures cleared { self.new ≡ region_cleared config.now r self.old }
        ensures size { length self.new ≡ length self.old }
    {
        for page in 0..config.total_pages() {
            if u64::from(config.region_of(page)) == r {
                self.clear_page(page);
            }
        }
    }

    /// The words. Takes no memory.
    pub fn into_items(self) -> Items<u64>
        ensures { result ≡ self }
    {
        Items::from_vec(self.words)
    }
}
