//! Hashes twenty thousand pages, each with a word of the digest before it, and prints the last digest. It
//! is what `bench/run` times to see how fast `page_digest` is.
#![tactic(auto)]

use mon_measure::{page_digest, to_words};
use std::io;

/// How many pages are hashed.
const PAGES: u32 = 20_000;

/// The words of the last digest. Word n mod 512 of page n is the first word of the digest before; the
/// words of the first page are zeros.
fn last_digest() -> [u64; 4] {
    let mut page = [0; 512];
    let mut words = to_words(&page_digest(&page));
    for n in 1..PAGES {
        page[n as usize % 512] = words[0];
        words = to_words(&page_digest(&page));
    }
    words
}

fn main(rt: HostRuntime) -> io::Result<()> {
    let [a, b, c, d] = last_digest();
    println!(rt; "{PAGES} pages, the last digest {a} {b} {c} {d}")?;
    Ok(())
}
