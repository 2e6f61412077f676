//! Whole files, and whole texts.

ghost use Rattle.std.specs.Prelude.{◌≡◌, ◌≤◌, ◌<◌, ◌+◌, ℕ, List, Err, IfOk, OnOk, OnErr, vec_len};
ghost use Rattle.std.specs.Io.KnownBytes.{Appends};
ghost use Rattle.sm_ports.specs.Causes.{Rose, HasCause};
ghost use Rattle.sm_ports.specs.Contents.{IsPrefix, IsFile, AppendsPart};
ghost use Rattle.sm_ports.specs.declared.failed.ReadError.TheVariants as errors;

use crate::failed::{Failed, ReadError};
use crate::ports::{Depot, Sink};
use std::alloc::Global;

/// How many bytes are asked for at a time.
const PIECE: usize = 4096;

/// Reads the next piece of a file, up to `limit` bytes of it, and answers how many bytes came.
fn read_piece<D: Depot>(
    depot: &mut D,
    name: &str,
    limit: usize,
    bytes: &mut Vec<u8>,
) -> Result<usize, ReadError>
    requires { vec_len bytes.old < limit }
    ensures grows { IfOk result (λ n. vec_len bytes.new ≡ vec_len bytes.old + n) }
    ensures within { OnOk result (vec_len bytes.new ≤ limit) }
    ensures prefix { OnOk result (IsPrefix (D.contents depot.old name.now) bytes.old.items →
        IsPrefix (D.contents depot.old name.now) bytes.new.items) }
    ensures end { IfOk result (λ n. n ≡ 0 → IsPrefix (D.contents depot.old name.now) bytes.old.items →
        IsFile (D.contents depot.old name.now) limit bytes.new.items) }
    ensures contents { D.contents depot.new ≡ D.contents depot.old }
    ensures cause { result ≡ Err errors.Failed →
        Rose (D.faults depot.old name.now) (D.faults depot.new name.now) }
    ensures later { (other : List ℕ) → D.faults depot.old other ≤ D.faults depot.new other }
{
    let mut piece = [0u8; PIECE];
    let at = bytes.len();
    let into = &mut piece[..PIECE.min(limit - at)];
    let n = depot.read_at(name, at as u64, into)?;
    bytes.extend_from_slice(&into[..n])?;
    Ok(n)
}

/// The bytes of a file, or its first `limit` bytes where it has more: a caller that refuses files of
/// more than some number of bytes passes that number plus one. `ReadError::Failed` comes only where
/// the depot's count of faults of `name` rose in this call.
pub fn read_file<D: Depot>(
    alloc: Global,
    depot: &mut D,
    name: &str,
    limit: usize,
) -> Result<Vec<u8>, ReadError>
    ensures bytes { IfOk result (λ v. IsFile (D.contents depot.old name.now) limit v.items) }
    ensures within { IfOk result (λ v. vec_len v ≤ limit) }
    ensures contents { D.contents depot.new ≡ D.contents depot.old }
    ensures cause { result ≡ Err errors.Failed →
        Rose (D.faults depot.old name.now) (D.faults depot.new name.now) }
    ensures later { (other : List ℕ) → D.faults depot.old other ≤ D.faults depot.new other }
{
    let mut bytes = Vec::new(alloc);
    while bytes.len() < limit {
        if read_piece(depot, name, limit, &mut bytes)? == 0 {
            break;
        }
    }
    Ok(bytes)
}

/// Puts all the bytes, each time again from where the sink cut them. Where the sink fails, it has taken
/// a proper prefix of them.
pub fn put_all<K: Sink>(out: &mut K, bytes: &[u8]) -> Result<(), Failed>
    ensures ok { OnOk result (Appends (K.taken out.old) (K.taken out.new) bytes.now) }
    ensures err { OnErr result (AppendsPart (K.taken out.old) (K.taken out.new) bytes.now) }
    ensures cause { HasCause (K.faults out.old) (K.faults out.new) result }
{
    let mut done = 0;
    while done < bytes.len() {
        let (_, rest) = bytes.split_at(done);
        done += out.put(rest)?;
    }
    Ok(())
}
