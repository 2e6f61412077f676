//! The words of a region, one after the other.

ghost use Rattle.std.specs.Prelude.{◌≡◌, ◌≤◌, ◌<◌, IfSome, None, []};
ghost use Rattle.dram_map.specs.Addresses.{word_total, region_of_word};
ghost use Rattle.call_machine.specs.Rest.{region_words_from};

use mon_types::{Config, PAGE_WORDS};

/// The first word of a region from one on, if there is one.
#[tactic(auto, using(mon_types::specs::LimitLaws::few_pages))]
pub fn next_word(config: &Config, r: u64, from: u32) -> Option<u32>
    requires { from ≤ word_total config.now }
    ensures within { IfSome result (λ word. word < word_total config.now) }
    ensures region { IfSome result (λ word. region_of_word config.now word ≡ r) }
    ensures skips { IfSome result (λ word. region_words_from config.now r from ≡ region_words_from config.now r word) }
    ensures none { result ≡ None → region_words_from config.now r from ≡ [] }
{
    let words = PAGE_WORDS as u32;
    let _regions = config.regions();
    let first = (from / words) as u16;
    for page in first..config.total_pages() {
        if u64::from(config.region_of(page)) == r {
            return Some(from.max(words * u32::from(page)));
        }
    }
    None
}
