//! Objects, and sets of them.

ghost use Rattle.std.specs.Prelude.{◌≡◌, [], true, IfSome};
ghost use Rattle.text_in.specs.Words.{words_of};
ghost use Rattle.mon_model.specs.Tries.{tried_set};
ghost use Rattle.report_lines.specs.Fits.{is_of_machine};
ghost use Rattle.report_lines.specs.Reading.{Reads, lettered_object, of_machine, object_of, object_at, has_place, with_object, with_word, tried_from};

use lock_plan::add_tried;
use mon_types::{Config, ObjectId, Tried, bit};
use text_in::{canonical_number, next_word};

fn is_of_machine(config: &Config, object: ObjectId) -> bool
    ensures { result ≡ is_of_machine config.now object }
{
    match object {
        ObjectId::Enclave(e) => e < 8,
        ObjectId::Thread(t) => t < 16,
        ObjectId::Region(r) => r < config.regions(),
        ObjectId::Cell(c) => c < config.cores(),
    }
}

fn lettered_object(letter: u8, n: u8) -> Option<ObjectId>
    ensures { result ≡ lettered_object letter n }
{
    match letter {
        b'e' => Some(ObjectId::Enclave(n)),
        b't' => Some(ObjectId::Thread(n)),
        b'r' => Some(ObjectId::Region(n)),
        b'c' => Some(ObjectId::Cell(n)),
        _ => None,
    }
}

/// The object of the machine that a word is.
fn object_of(config: &Config, word: &[u8]) -> Option<ObjectId>
    ensures object { result ≡ object_of config.now word.now }
    ensures there { IfSome result (λ object. is_of_machine config.now object ≡ true) }
{
    let [letter, digits @ ..] = word else {
        return None;
    };
    let n = canonical_number(digits, 255)?;
    let object = lettered_object(*letter, n as u8)?;
    if is_of_machine(config, object) {
        Some(object)
    } else {
        None
    }
}

/// The first word as an object, and what stands behind it.
pub fn object_at<'a>(config: &Config, text: &'a [u8]) -> Option<(ObjectId, &'a [u8])>
    ensures { Reads result (object_at config.now (words_of text.now)) }
{
    let (word, rest) = next_word(text)?;
    let object = object_of(config, word)?;
    Some((object, rest))
}

/// Whether the object comes behind all of its kind in the sets.
#[tactic(auto, using(mon_types::specs::LimitLaws::few_cores, mon_types::specs::LimitLaws::few_regions))]
fn has_place(config: &Config, tried: &Tried, object: ObjectId) -> bool
    requires { is_of_machine config.now object ≡ true }
    ensures { result ≡ has_place tried.now object }
{
    let _machine = config.regions();
    match object {
        ObjectId::Enclave(e) => u64::from(tried.enclaves) < bit(e),
        ObjectId::Thread(t) => u64::from(tried.threads) < bit(t),
        ObjectId::Region(r) => tried.regions < bit(r),
        ObjectId::Cell(c) => u64::from(tried.cells) < bit(c),
    }
}

/// The sets and the object, where it comes behind all of its kind.
#[tactic(auto, using(crate::proofs::Objects::place_there))]
fn with_object(config: &Config, tried: Tried, object: ObjectId) -> Option<Tried>
    requires { is_of_machine config.now object ≡ true }
    ensures { result ≡ with_object tried object }
{
    let _machine = config.regions();
    if has_place(config, &tried, object) {
        let mut more = tried;
        add_tried(&mut more, object);
        Some(more)
    } else {
        None
    }
}

/// The sets and the object that a word is.
fn with_word(config: &Config, tried: Tried, word: &[u8]) -> Option<Tried>
    ensures { result ≡ with_word config.now tried word.now }
{
    let object = object_of(config, word)?;
    with_object(config, tried, object)
}

/// The sets of the objects that all words are, which ascend within each kind.
pub fn tried_of(config: &Config, text: &[u8]) -> Option<Tried>
    ensures { result ≡ tried_from config.now (tried_set []) (words_of text.now) }
{
    let mut tried = Tried {
        enclaves: 0,
        threads: 0,
        regions: 0,
        cells: 0,
    };
    let mut rest = text;
    while let Some((word, behind)) = next_word(rest) {
        tried = with_word(config, tried, word)?;
        rest = behind;
    }
    Some(tried)
}
