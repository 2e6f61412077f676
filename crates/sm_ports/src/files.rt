//! Files in memory, as pairs of a name and its bytes.

ghost use Rattle.std.specs.Prelude.{◌≡◌, List, ℕ, length};
ghost use Rattle.std.specs.Option.{option_map};
ghost use Rattle.std.specs.Borrow.{Bor};
ghost use Rattle.sm_ports.specs.Contents.{IsPieceOf};
ghost use Rattle.sm_ports.specs.Files.{file_of, piece_size};

/// The bytes of the first file of this name.
pub(crate) fn find<'a>(files: &'a [(String, Vec<u8>)], name: &str) -> Option<&'a [u8]>
    ensures { option_map (λ (x : Bor (List ℕ)). x.now) result ≡ file_of files.now name.now }
{
    for (key, bytes) in files {
        if key.as_str() == name {
            return Some(bytes.as_slice());
        }
    }
    None
}

/// Copies what a file has from the place `at` on, as much as there is room for, and answers how much.
pub(crate) fn copy_from(bytes: &[u8], at: u64, into: &mut [u8]) -> usize
    ensures size { result ≡ piece_size bytes.now at (length into.new) }
    ensures piece { IsPieceOf bytes.now at result into.new }
    ensures room { length into.new ≡ length into.old }
{
    let len = bytes.len() as u64;
    if at >= len {
        return 0;
    }
    let (_, rest) = bytes.split_at(at as usize);
    let n = rest.len().min(into.len());
    into[..n].copy_from_slice(&rest[..n]);
    n
}
