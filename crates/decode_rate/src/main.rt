//! Decodes ten million words of a fixed sequence and prints how many of them are instructions. It is
//! what `bench/run` times to see how fast `decode` is.
#![tactic(auto)]

use rv_decode::decode;
use std::io;

/// How many words are decoded.
const WORDS: u32 = 10_000_000;

/// The opcodes of the instruction table, so that most words of the sequence are instructions.
const OPCODES: [u32; 14] = [
    0x37, 0x17, 0x6f, 0x67, 0x63, 0x03, 0x23, 0x13, 0x1b, 0x33, 0x3b, 0x2f, 0x0f, 0x73,
];

/// The state after this one, a linear congruential sequence.
fn next_state(state: u64) -> u64 {
    state
        .wrapping_mul(6364136223846793005)
        .wrapping_add(1442695040888963407)
}

/// The word of a state: its upper bits, with one of the opcodes.
fn word_of(state: u64) -> u32 {
    let bits = (state >> 32) as u32;
    let opcode = OPCODES[(state >> 24) as usize % OPCODES.len()];
    (bits & !0x7f) | opcode
}

/// How many of the words are instructions.
fn count_instructions() -> u32 {
    let mut state = 1;
    let mut count = 0u32;
    for _ in 0..WORDS {
        state = next_state(state);
        if decode(word_of(state)).is_some() {
            count = count.wrapping_add(1);
        }
    }
    count
}

fn main(rt: HostRuntime) -> io::Result<()> {
    let count = count_instructions();
    println!(rt; "{count} of {WORDS} words are instructions")?;
    Ok(())
}
