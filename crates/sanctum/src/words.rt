//! The words of the command line.

ghost use Rattle.std.specs.Prelude.{◌≡◌};
ghost use Rattle.std.specs.Option.{option_map};
ghost use Rattle.std.specs.Str.{bytes_eq};
ghost use Rattle.sanctum.specs.Words.{script_word, run_word, solo_word, convert_word, pack_word, llc_word, plain_word, origin_of, number_of, size_of_words, command_of_two, command_of_three, command_of_pack, command_of, source_said, order_said};

use crate::orders::{Order, Source};
use mon_types::Config;
use text_in::canonical_number;

#[tactic(auto, unfolding(crate::specs::Words::script_word))]
fn is_script(word: &str) -> bool
    ensures { result ≡ bytes_eq word.now script_word }
{
    word == "script"
}

#[tactic(auto, unfolding(crate::specs::Words::run_word))]
fn is_run(word: &str) -> bool
    ensures { result ≡ bytes_eq word.now run_word }
{
    word == "run"
}

#[tactic(auto, unfolding(crate::specs::Words::solo_word))]
fn is_solo(word: &str) -> bool
    ensures { result ≡ bytes_eq word.now solo_word }
{
    word == "solo"
}

#[tactic(auto, unfolding(crate::specs::Words::convert_word))]
fn is_convert(word: &str) -> bool
    ensures { result ≡ bytes_eq word.now convert_word }
{
    word == "convert"
}

#[tactic(auto, unfolding(crate::specs::Words::pack_word))]
fn is_pack(word: &str) -> bool
    ensures { result ≡ bytes_eq word.now pack_word }
{
    word == "pack"
}

#[tactic(auto, unfolding(crate::specs::Words::llc_word))]
fn is_llc(word: &str) -> bool
    ensures { result ≡ bytes_eq word.now llc_word }
{
    word == "llc"
}

#[tactic(auto, unfolding(crate::specs::Words::plain_word))]
fn is_plain(word: &str) -> bool
    ensures { result ≡ bytes_eq word.now plain_word }
{
    word == "-"
}

/// The image that a word names.
fn source_of_word(word: &str) -> Source<'_>
    ensures { source_said result ≡ origin_of word.now }
{
    if is_plain(word) {
        Source::Plain
    } else {
        Source::File(word)
    }
}

/// The number below 256 that a word is: decimal digits without a sign or a leading zero. No number of the
/// commands is larger.
fn number_of_word(word: &str) -> Option<u8>
    ensures { result ≡ number_of word.now }
{
    Some(canonical_number(word.as_bytes(), 255)? as u8)
}

/// The size of a machine that four words say, where it is within the limits.
fn size_of_words(cores: &str, regions: &str, pages: &str, shift: &str) -> Option<Config>
    ensures { result ≡ size_of_words cores.now regions.now pages.now shift.now }
{
    let cores = number_of_word(cores)?;
    let regions = number_of_word(regions)?;
    let pages = number_of_word(pages)?;
    let shift = number_of_word(shift)?;
    Config::new(cores, regions, pages, shift)
}

/// The order of a command of two words: `script SCRIPT`, `convert IMAGE` or `llc TRACE`.
fn order_of_two<'a>(command: &str, word: &'a str) -> Option<Order<'a>>
    ensures { option_map order_said result ≡ command_of_two command.now word.now }
{
    if is_script(command) {
        Some(Order::Run(Source::Plain, word))
    } else if is_convert(command) {
        Some(Order::Convert(source_of_word(word)))
    } else if is_llc(command) {
        Some(Order::Llc(word))
    } else {
        None
    }
}

/// The order of a command of three words: `run IMAGE SCRIPT` or `solo IMAGE SCRIPT`.
fn order_of_three<'a>(command: &str, image: &'a str, script: &'a str) -> Option<Order<'a>>
    ensures { option_map order_said result ≡ command_of_three command.now image.now script.now }
{
    if is_run(command) {
        Some(Order::Run(source_of_word(image), script))
    } else if is_solo(command) {
        Some(Order::Solo(source_of_word(image), script))
    } else {
        None
    }
}

/// The order of `pack ASM CORES REGIONS PAGES SHIFT`.
fn order_of_pack<'a>(command: &str, text: &'a str, size: Option<Config>) -> Option<Order<'a>>
    ensures { option_map order_said result ≡ command_of_pack command.now text.now size }
{
    if is_pack(command) {
        Some(Order::Pack(text, size?))
    } else {
        None
    }
}

/// What the words ask for; None where they are no line of the table of commands.
pub fn order_of_words(words: &[String]) -> Option<Order<'_>>
    ensures { option_map order_said result ≡ command_of words.now }
{
    match words {
        [command, word] => order_of_two(command.as_str(), word.as_str()),
        [command, image, script] => {
            order_of_three(command.as_str(), image.as_str(), script.as_str())
        }
        [command, text, cores, regions, pages, shift] => {
            let size = size_of_words(
                cores.as_str(),
                regions.as_str(),
                pages.as_str(),
                shift.as_str(),
            );
            order_of_pack(command.as_str(), text.as_str(), size)
        }
        _ => None,
    }
}
