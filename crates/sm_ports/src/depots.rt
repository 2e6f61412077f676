//! Depots in memory, for tests.

ghost use Rattle.std.specs.Prelude.{◌≡◌, ◌≤◌, ℕ, List, false, IfOk, length, min};
ghost use Rattle.std.specs.Result.{result_ok};
ghost use Rattle.sm_ports.specs.Causes.{HasCause};
ghost use Rattle.sm_ports.specs.Contents.{ReadsAt};
ghost use Rattle.sm_ports.specs.Failures.{before_calls, after_call};
ghost use Rattle.sm_ports.specs.Files.{file_of, still_file_of};

use crate::failed::Failed;
use crate::failures::{Failures, raised};
use crate::files::{copy_from, find};
use crate::ports::Depot;

/// Files in memory. Of two files of one name it keeps the first. It fails the calls whose numbers are
/// listed, counted from 0, and calls for a name that no file has. Else a call gives as many bytes as the
/// file has from the place on and as there is room for.
#[derive(Drop)]
pub struct MapDepot {
    files: Vec<(String, Vec<u8>)>,
    failures: Failures,
    present: u64,
    missing: u64,
}

impl MapDepot {
    ghost use Rattle.sm_ports.specs.Depots.{failures_of};

    /// These files, and no call yet. `fails` lists the numbers of the calls that fail.
    pub fn new(files: Vec<(String, Vec<u8>)>, fails: Vec<u32>) -> MapDepot
        ensures contents { ⟦<MapDepot as Depot>⟧.contents result ≡ file_of files.items }
        ensures faults { (name : List ℕ) → ⟦<MapDepot as Depot>⟧.faults result name ≡ 0 }
        ensures fails { failures_of result ≡ before_calls fails }
    {
        MapDepot {
            files,
            failures: Failures::new(fails),
            present: 0,
            missing: 0,
        }
    }
}

impl Depot for MapDepot {
    ghost use Rattle.sm_ports.specs.Depots.{contents_of, faults_of, failures_of, read_size, count_after};

    ghost contents = { contents_of };

    ghost faults = { faults_of };

    fn read_at(&mut self, name: &str, at: u64, into: &mut [u8]) -> Result<usize, Failed>
        // What each depot promises.
        ensures bound { IfOk result (λ n. n ≤ length into.new) }
        ensures bytes { ReadsAt (contents_of self.old name.now) at result into.new }
        ensures contents { contents_of self.new ≡ contents_of self.old }
        ensures cause { HasCause (faults_of self.old name.now) (faults_of self.new name.now) result }
        ensures later { (other : List ℕ) → faults_of self.old other ≤ faults_of self.new other }

        // When it fails, how much it gives, and what it counts.
        ensures size { result_ok result ≡ read_size self.old name.now at (length into.new) }
        ensures counts { (other : List ℕ) → faults_of self.new other ≡ count_after self.old name.now other }
        ensures calls { failures_of self.new ≡ after_call (failures_of self.old) }
    {
        if self.failures.call() {
            self.present = raised(self.present);
            self.missing = raised(self.missing);
            return Err(Failed);
        }
        match find(&self.files, name) {
            Some(bytes) => Ok(copy_from(bytes, at, into)),
            None => {
                self.missing = raised(self.missing);
                Err(Failed)
            }
        }
    }
}

/// A `MapDepot` that gives at most `most` bytes a call.
#[derive(Drop)]
pub struct DripDepot {
    whole: MapDepot,
    most: usize,
    ghost some: { 1 ≤ most },
}

impl DripDepot {
    ghost use Rattle.sm_ports.specs.Depots.{failures_of, whole_of, most_of};

    /// These files, and no call yet. `fails` lists the numbers of the calls that fail, and `most` is how
    /// many bytes a call gives at most.
    pub fn new(files: Vec<(String, Vec<u8>)>, fails: Vec<u32>, most: usize) -> DripDepot
        requires { 1 ≤ most }
        ensures contents { ⟦<DripDepot as Depot>⟧.contents result ≡ file_of files.items }
        ensures faults { (name : List ℕ) → ⟦<DripDepot as Depot>⟧.faults result name ≡ 0 }
        ensures fails { failures_of (whole_of result) ≡ before_calls fails }
        ensures most { most_of result ≡ most }
    {
        DripDepot {
            whole: MapDepot::new(files, fails),
            most,
        }
    }
}

impl Depot for DripDepot {
    ghost use Rattle.sm_ports.specs.Depots.{contents_of, faults_of, failures_of, whole_of, most_of, read_size, count_after};

    ghost contents = { λ d. contents_of (whole_of d) };

    ghost faults = { λ d. faults_of (whole_of d) };

    fn read_at(&mut self, name: &str, at: u64, into: &mut [u8]) -> Result<usize, Failed>
        // What each depot promises.
        ensures bound { IfOk result (λ n. n ≤ length into.new) }
        ensures bytes { ReadsAt (contents_of (whole_of self.old) name.now) at result into.new }
        ensures contents { contents_of (whole_of self.new) ≡ contents_of (whole_of self.old) }
        ensures cause { HasCause (faults_of (whole_of self.old) name.now)
            (faults_of (whole_of self.new) name.now) result }
        ensures later { (other : List ℕ) →
            faults_of (whole_of self.old) other ≤ faults_of (whole_of self.new) other }

        // When it fails, how much it gives, and what it counts.
        ensures size { result_ok result
            ≡ read_size (whole_of self.old) name.now at (min (most_of self.old) (length into.new)) }
        ensures counts { (other : List ℕ) →
            faults_of (whole_of self.new) other ≡ count_after (whole_of self.old) name.now other }
        ensures calls { failures_of (whole_of self.new) ≡ after_call (failures_of (whole_of self.old)) }
        ensures most { most_of self.new ≡ most_of self.old }
    {
        let n = self.most.min(into.len());
        self.whole.read_at(name, at, &mut into[..n])
    }
}

/// Files in memory, of which no call fails. Of two files of one name it keeps the first, and a name that
/// no file has is an empty file. A call gives as many bytes as the file has from the place on and as
/// there is room for.
#[derive(Drop)]
pub struct StillDepot {
    files: Vec<(String, Vec<u8>)>,
}

impl StillDepot {
    /// These files.
    pub fn new(files: Vec<(String, Vec<u8>)>) -> StillDepot
        ensures { ⟦<StillDepot as Depot>⟧.contents result ≡ still_file_of files.items }
    {
        StillDepot { files }
    }
}

impl Depot for StillDepot {
    ghost use Rattle.sm_ports.specs.Depots.{still_contents_of, size_by};

    ghost contents = { still_contents_of };

    ghost faults = { λ _ _. 0 };

    fn read_at(&mut self, name: &str, at: u64, into: &mut [u8]) -> Result<usize, Failed>
        ensures bound { IfOk result (λ n. n ≤ length into.new) }
        ensures bytes { ReadsAt (still_contents_of self.old name.now) at result into.new }
        ensures contents { still_contents_of self.new ≡ still_contents_of self.old }
        ensures size { result_ok result
            ≡ size_by false (still_contents_of self.old name.now) at (length into.new) }
    {
        let bytes = find(&self.files, name).unwrap_or(&[]);
        Ok(copy_from(bytes, at, into))
    }
}
