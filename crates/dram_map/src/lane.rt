//! The bytes of a word that a narrow access reads and writes.

ghost use Rattle.std.specs.Prelude.{◌≡◌, true};
ghost use Rattle.dram_map.specs.Lanes.{is_access_size, is_lane, low_bytes, taken, with_lane, TakesBytes, PutsBytes};

/// The low bytes of a word, 1, 2, 4 or 8 of them.
fn low_bytes(word: u64, size: u8) -> u64
    requires { is_access_size size ≡ true }
    ensures { result ≡ low_bytes word size }
{
    match size {
        1 => word % (1 << 8),
        2 => word % (1 << 16),
        4 => word % (1 << 32),
        _ => word,
    }
}

/// What the lane of `size` bytes from byte `at` of a word on holds, with zeros above. The size is 1, 2, 4
/// or 8 and divides `at`, which is below 8.
pub fn take(word: u64, at: u8, size: u8) -> u64
    requires lane { is_lane at size ≡ true }
    ensures number { result ≡ taken word at size }
    ensures bytes { TakesBytes word at size result }
{
    low_bytes(word >> (8 * at), size)
}

/// A word after the low `size` bytes of a value were put in the lane from byte `at` on. The condition is
/// that of `take`.
pub fn put(word: u64, at: u8, size: u8, value: u64) -> u64
    requires lane { is_lane at size ≡ true }
    ensures number { result ≡ with_lane word at size value }
    ensures bytes { PutsBytes word at size value result }
{
    let scale = 1 << (8 * at);
    let old = low_bytes(word >> (8 * at), size);
    word - old * scale + low_bytes(value, size) * scale
}
