//! The words of DRAM that accesses read and write.

ghost use Rattle.std.specs.Prelude.{◌≡◌, ◌⊎◌, ◌%◌, ◌<◌, ◌^◌, true};
ghost use Rattle.dram_map.specs.Lanes.{is_access_size};
ghost use Rattle.core_access.specs.Causes.{is_aligned};
ghost use Rattle.core_access.specs.Words.{place_in, instruction_at, loaded_from, stored_in, combined_in};

use dram_map::{first_word, put, take};
use mon_types::PAGE_BYTES;
use rv_exec::finish_load;
use rv_ext::{AmoOp, amo};

/// The place, in DRAM's list of words, of the word that holds the byte at a virtual address whose page this is.
pub fn place_in(page: u16, va: u64) -> u64
    ensures { result ≡ place_in page va }
{
    first_word(page) + va % PAGE_BYTES / 8
}

/// The byte of its word at which an address stands.
fn byte_in(va: u64) -> u8
    ensures { result ≡ va % 8 }
{
    (va % 8) as u8
}

/// The instruction at a pc, of the word that holds it.
pub fn instruction_at(pc: u64, word: u64) -> u32
    requires { is_aligned pc 4 ≡ true }
    ensures { result ≡ instruction_at pc word }
{
    take(word, byte_in(pc), 4) as u32
}

/// What a load of `size` bytes at an address writes to its register, of the word that holds them.
pub fn load_from(word: u64, va: u64, size: u8, signed: bool) -> u64
    requires size { is_access_size size ≡ true }
    requires aligned { is_aligned va size ≡ true }
    ensures { result ≡ loaded_from word va size signed }
{
    finish_load(size, signed, take(word, byte_in(va), size))
}

/// The word after a store of the low `size` bytes of a value at an address.
pub fn store_in(word: u64, va: u64, size: u8, value: u64) -> u64
    requires size { is_access_size size ≡ true }
    requires aligned { is_aligned va size ≡ true }
    ensures { result ≡ stored_in word va size value }
{
    put(word, byte_in(va), size, value)
}

/// The word after an atomic instruction of `size` bytes at an address, with this operand.
pub fn combine_in(op: AmoOp, word: u64, va: u64, size: u8, operand: u64) -> u64
    requires size { (size ≡ 4) ⊎ (size ≡ 8) }
    requires aligned { is_aligned va size ≡ true }
    ensures { result ≡ combined_in op word va size operand }
{
    let old = take(word, byte_in(va), size);
    store_in(word, va, size, amo(op, size, old, operand))
}
