//! Sinks in memory, for tests.

ghost use Rattle.std.specs.Prelude.{◌≡◌, ◌≤◌, ◌+◌, ◌-◌, ◌^◌, ◌++◌, [], Some, IfOk, length, min, take, vec_capacity, vec_len};
ghost use Rattle.std.specs.Result.{result_ok};
ghost use Rattle.sm_ports.specs.Causes.{HasCause, counted};
ghost use Rattle.sm_ports.specs.Contents.{Puts};
ghost use Rattle.sm_ports.specs.Failures.{before_calls, after_call};
ghost use Rattle.sm_ports.specs.declared.sinks.TheConstants.{KEPT};

use crate::failed::Failed;
use crate::failures::{Failures, raised};
use crate::ports::Sink;
use std::alloc::{AllocError, Global};

/// A sink that keeps what it takes, up to a room. It fails the calls whose numbers are listed, counted
/// from 0, and calls with bytes to take when its room is used up. Else a call takes as many bytes as it
/// is given and as there is room for.
#[derive(Drop)]
pub struct VecSink {
    taken: Vec<u8>,
    room: usize,
    failures: Failures,
    faults: u64,
    ghost reserved: { room ≤ vec_capacity taken },
    ghost within: { vec_len taken ≤ room },
}

impl VecSink {
    ghost use Rattle.sm_ports.specs.Sinks.{failures_of, room_of};

    /// Nothing taken, and no call yet. It takes `room` bytes in all; `fails` lists the numbers of the
    /// calls that fail.
    pub fn new(alloc: Global, room: usize, fails: Vec<u32>) -> Result<VecSink, AllocError>
        ensures taken { IfOk result (λ s. ⟦<VecSink as Sink>⟧.taken s ≡ Some []) }
        ensures faults { IfOk result (λ s. ⟦<VecSink as Sink>⟧.faults s ≡ 0) }
        ensures room { IfOk result (λ s. room_of s ≡ room) }
        ensures fails { IfOk result (λ s. failures_of s ≡ before_calls fails) }
    {
        Ok(VecSink {
            taken: Vec::with_capacity(alloc, room)?,
            room,
            failures: Failures::new(fails),
            faults: 0,
        })
    }

    /// What it has taken.
    pub fn as_slice(&self) -> &[u8]
        ensures { ⟦<VecSink as Sink>⟧.taken self.now ≡ Some result.now }
    {
        self.taken.as_slice()
    }
}

impl Sink for VecSink {
    ghost use Rattle.sm_ports.specs.Sinks.{taken_bytes, faults_of, failures_of, room_of, put_size};

    ghost taken = { λ s. Some (taken_bytes s) };

    ghost faults = { faults_of };

    fn put(&mut self, bytes: &[u8]) -> Result<usize, Failed>
        // What each sink promises.
        ensures bound { IfOk result (λ n. n ≤ length bytes.now) }
        ensures bytes { Puts (Some (taken_bytes self.old)) (Some (taken_bytes self.new)) result bytes.now }
        ensures cause { HasCause (faults_of self.old) (faults_of self.new) result }

        // When it fails, how much it takes, and what it counts.
        ensures size { result_ok result ≡ put_size self.old (length bytes.now) }
        ensures counts { faults_of self.new ≡ counted result (faults_of self.old) }
        ensures calls { failures_of self.new ≡ after_call (failures_of self.old) }
        ensures room { room_of self.new ≡ room_of self.old }
    {
        let left = self.room - self.taken.len();
        if self.failures.call() || (left == 0 && !bytes.is_empty()) {
            self.faults = raised(self.faults);
            return Err(Failed);
        }
        let n = left.min(bytes.len());
        append_reserved(&mut self.taken, &bytes[..n]);
        Ok(n)
    }
}

/// A `VecSink` that takes at most `most` bytes a call.
#[derive(Drop)]
pub struct DripSink {
    whole: VecSink,
    most: usize,
    ghost some: { 1 ≤ most },
}

impl DripSink {
    ghost use Rattle.sm_ports.specs.Sinks.{failures_of, room_of, whole_of, most_of};

    /// Nothing taken, and no call yet. It takes `room` bytes in all, and at most `most` a call; `fails`
    /// lists the numbers of the calls that fail.
    pub fn new(
        alloc: Global,
        room: usize,
        fails: Vec<u32>,
        most: usize,
    ) -> Result<DripSink, AllocError>
        requires { 1 ≤ most }
        ensures taken { IfOk result (λ s. ⟦<DripSink as Sink>⟧.taken s ≡ Some []) }
        ensures faults { IfOk result (λ s. ⟦<DripSink as Sink>⟧.faults s ≡ 0) }
        ensures room { IfOk result (λ s. room_of (whole_of s) ≡ room) }
        ensures fails { IfOk result (λ s. failures_of (whole_of s) ≡ before_calls fails) }
        ensures most { IfOk result (λ s. most_of s ≡ most) }
    {
        Ok(DripSink {
            whole: VecSink::new(alloc, room, fails)?,
            most,
        })
    }

    /// What it has taken.
    pub fn as_slice(&self) -> &[u8]
        ensures { ⟦<DripSink as Sink>⟧.taken self.now ≡ Some result.now }
    {
        self.whole.as_slice()
    }
}

impl Sink for DripSink {
    ghost use Rattle.sm_ports.specs.Sinks.{taken_bytes, faults_of, failures_of, room_of, whole_of, most_of, put_size};

    ghost taken = { λ s. Some (taken_bytes (whole_of s)) };

    ghost faults = { λ s. faults_of (whole_of s) };

    fn put(&mut self, bytes: &[u8]) -> Result<usize, Failed>
        // What each sink promises.
        ensures bound { IfOk result (λ n. n ≤ length bytes.now) }
        ensures bytes { Puts (Some (taken_bytes (whole_of self.old)))
            (Some (taken_bytes (whole_of self.new))) result bytes.now }
        ensures cause { HasCause (faults_of (whole_of self.old)) (faults_of (whole_of self.new)) result }

        // When it fails, how much it takes, and what it counts.
        ensures size { result_ok result
            ≡ put_size (whole_of self.old) (min (most_of self.old) (length bytes.now)) }
        ensures counts { faults_of (whole_of self.new) ≡ counted result (faults_of (whole_of self.old)) }
        ensures calls { failures_of (whole_of self.new) ≡ after_call (failures_of (whole_of self.old)) }
        ensures room { room_of (whole_of self.new) ≡ room_of (whole_of self.old) }
        ensures most { most_of self.new ≡ most_of self.old }
    {
        let n = self.most.min(bytes.len());
        self.whole.put(&bytes[..n])
    }
}

/// How many bytes a `StillSink` keeps.
const KEPT: usize = 65_536;

/// A sink that takes all that it is given, and of which no call fails. It counts what it was given, and
/// keeps the first 65,536 bytes.
#[derive(Drop)]
pub struct StillSink {
    kept: Vec<u8>,
    given: u64,
    ghost reserved: { KEPT ≤ vec_capacity kept },
    ghost within: { vec_len kept ≤ KEPT },
}

impl StillSink {
    ghost use Rattle.sm_ports.specs.Sinks.{kept_bytes, given_count};

    /// Nothing given yet.
    pub fn new(alloc: Global) -> Result<StillSink, AllocError>
        ensures kept { IfOk result (λ s. kept_bytes s ≡ []) }
        ensures given { IfOk result (λ s. given_count s ≡ 0) }
    {
        Ok(StillSink {
            kept: Vec::with_capacity(alloc, KEPT)?,
            given: 0,
        })
    }

    /// How many bytes it was given. The count stands still at the end of its type.
    pub fn given(&self) -> u64
        ensures { result ≡ given_count self.now }
    {
        self.given
    }

    /// The first 65,536 bytes that it was given.
    pub fn as_slice(&self) -> &[u8]
        ensures { result.now ≡ kept_bytes self.now }
    {
        self.kept.as_slice()
    }
}

impl Sink for StillSink {
    ghost use Rattle.std.specs.Prelude.{None};
    ghost use Rattle.sm_ports.specs.Sinks.{kept_bytes, given_count};

    ghost taken = { λ _. None };

    ghost faults = { λ _. 0 };

    #[tactic(auto, using(crate::proofs::Kept::kept_more))]
    fn put(&mut self, bytes: &[u8]) -> Result<usize, Failed>
        ensures size { result_ok result ≡ Some (length bytes.now) }
        ensures kept { kept_bytes self.new ≡ take KEPT (kept_bytes self.old ++ bytes.now) }
        ensures given { given_count self.new ≡ min (given_count self.old + length bytes.now) (2 ^ 64 - 1) }
    {
        let n = bytes.len().min(KEPT - self.kept.len());
        self.given = self.given.saturating_add(bytes.len() as u64);
        append_reserved(&mut self.kept, &bytes[..n]);
        Ok(bytes.len())
    }
}

/// Appends bytes for which there is room already, so that no memory is taken.
fn append_reserved(kept: &mut Vec<u8>, bytes: &[u8])
    requires { vec_len kept.old + length bytes.now ≤ vec_capacity kept.old }
    ensures items { kept.new.items ≡ kept.old.items ++ bytes.now }
    ensures len { vec_len kept.new ≡ vec_len kept.old + length bytes.now }
    ensures capacity { vec_capacity kept.old ≤ vec_capacity kept.new }
{
    let is_appended = kept.extend_from_slice(bytes).is_ok();
    prove!(is_appended);
}
