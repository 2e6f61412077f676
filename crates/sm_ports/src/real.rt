//! The trusted edge: files of the system, and the standard output. That the bytes are passed on is no
//! clause here; what is proved is that faults are counted.

ghost use Rattle.std.specs.Prelude.{◌≡◌, ◌≤◌, ◌<◌, IfOk, length};
ghost use Rattle.sm_ports.specs.Causes.{HasCause, counted};

use crate::failed::Failed;
use crate::failures::raised;
use crate::ports::{Depot, Sink};
use std::fs::File;
use std::io::ErrorKind;
use std::os::unix::fs::FileExt;
use std::rt::Files;
use std::{fs, io};

/// Files of the system, by their paths. It tells no content. A call that the system fails, for want of
/// memory too, raises the count of every name.
#[derive(Drop)]
pub struct FileDepot<R> {
    rt: R,
    faults: u64,
}

impl<R> FileDepot<R> {
    ghost use Rattle.sm_ports.specs.Real.{file_faults};

    /// No call yet.
    pub fn new(rt: R) -> FileDepot<R>
        ensures { file_faults result ≡ 0 }
    {
        FileDepot { rt, faults: 0 }
    }
}

impl<R: Files<File = File>> Depot for FileDepot<R> {
    ghost use Rattle.std.specs.Prelude.{None};
    ghost use Rattle.sm_ports.specs.Real.{file_faults};

    ghost contents = { λ _ _. None };

    ghost faults = { λ d _. file_faults d };

    fn read_at(&mut self, name: &str, at: u64, into: &mut [u8]) -> Result<usize, Failed>
        ensures bound { IfOk result (λ n. n ≤ length into.new) }
        ensures cause { HasCause (file_faults self.old) (file_faults self.new) result }
        ensures counts { file_faults self.new ≡ counted result (file_faults self.old) }
    {
        match read_from(&self.rt, name, at, into) {
            Ok(n) => Ok(n),
            Err(_) => {
                self.faults = raised(self.faults);
                Err(Failed)
            }
        }
    }
}

/// Opens a file and reads from it, again where the system's read was interrupted.
fn read_from<R: Files<File = File>>(
    rt: &R,
    name: &str,
    at: u64,
    into: &mut [u8],
) -> io::Result<usize>
    ensures { IfOk result (λ n. n ≤ length into.new) }
{
    let file = fs::open(rt, name)?;
    for _ in 0..u64::MAX {
        match file.read_at(into, at) {
            Err(e) if e.kind() == ErrorKind::Interrupted => {}
            answer => return answer,
        }
    }
    Err(ErrorKind::Interrupted.into())
}

/// The standard output. It tells no content. A call that the system fails, and one that takes nothing of
/// a piece that is not empty, raises the count.
#[derive(Drop)]
pub struct StdSink<R> {
    rt: R,
    faults: u64,
}

impl<R> StdSink<R> {
    ghost use Rattle.sm_ports.specs.Real.{output_faults};

    /// No call yet.
    pub fn new(rt: R) -> StdSink<R>
        ensures { output_faults result ≡ 0 }
    {
        StdSink { rt, faults: 0 }
    }
}

impl<R: Print> Sink for StdSink<R> {
    ghost use Rattle.std.specs.Prelude.{None};
    ghost use Rattle.sm_ports.specs.Real.{output_faults};

    ghost taken = { λ _. None };

    ghost faults = { output_faults };

    fn put(&mut self, bytes: &[u8]) -> Result<usize, Failed>
        ensures bound { IfOk result (λ n. n ≤ length bytes.now) }
        ensures some { IfOk result (λ n. 0 < length bytes.now → 0 < n) }
        ensures cause { HasCause (output_faults self.old) (output_faults self.new) result }
        ensures counts { output_faults self.new ≡ counted result (output_faults self.old) }
    {
        match write_to(&self.rt, bytes) {
            Ok(n) if n > 0 || bytes.is_empty() => Ok(n),
            _ => {
                self.faults = raised(self.faults);
                Err(Failed)
            }
        }
    }
}

/// Writes to the standard output, again where the system's write was interrupted.
fn write_to<R: Print>(rt: &R, bytes: &[u8]) -> io::Result<usize>
    ensures { IfOk result (λ n. n ≤ length bytes.now) }
{
    for _ in 0..u64::MAX {
        match rt.write_some(bytes) {
            Err(e) if e.kind() == ErrorKind::Interrupted => {}
            answer => return answer,
        }
    }
    Err(ErrorKind::Interrupted.into())
}
