//! Each kind of fault of a script and of an assembler text at its line, each answer of the top call with its
//! exit status, and the reads that one file takes.

use crate::tests::{check_answer, words_of};
use crate::top::sanctum;
use sm_ports::{Depot, Failed, OpenGate, VecSink};
use std::alloc::Global;
use std::process::Abort;
use std::test::Fail;
use std::thread::Threads;

/// A line of a script of each kind of fault, and how its fault line ends.
const SCRIPT_FAULTS: &str = "\
blok 3 | unknown word
flushé | unknown word
block | missing word
assign 3 | missing word
ecall | missing word
flush 1 | extra word
ecall 1 2 3 4 5 6 7 8 | extra word
block x | bad number
block 18446744073709551616 | bad number
reg 32 0 | bad number
reg 0 0 | bad number
pc 2 | bad number
run | missing word
run 4294967296 | turns over
load 0 0 | extra word
store 0 | missing word
core 16 | bad core
run 1000001 | turns over
";

/// The same of assembler texts.
const ASM_FAULTS: &str = "\
ecal | unknown word
addi: ecall | unknown word
addi x1, x2 | bad operand
ecall x1 | bad operand
addi x32, x0, 0 | bad operand
addi x1, x0, 2048 | out of range
jal x0, 3 | out of range
.word 4294967296 | out of range
.at 2 | out of range
jal x0, nowhere | unknown label
m: ecall | double label
.at 32772 | too long
";

/// Runs the words over a file, whose third line is at fault, and checks the fault line.
fn check_fault<R: Threads + Sync + Abort>(
    rt: &R,
    alloc: Global,
    words: &[&str],
    file: &str,
    code: u8,
    want: &str,
) -> Result<(), Fail> {
    check_answer(rt, alloc, file, words, file.as_bytes(), code, want)
}

#[test]
fn each_kind_of_script_fault_at_its_line(rt: HostRuntime) -> Result<(), Fail> {
    let alloc = rt.alloc();
    for row in SCRIPT_FAULTS.lines() {
        let (line, kind) = row.split_once(" | ").ok_or("a row without a kind")?;
        let script = format!(in alloc; "flush\n# well\n{line}\nblok\n")?;
        let want = format!(in alloc; "refused: script line 3 {kind}\n")?;
        check_fault(&rt, alloc, &["script", "S"], &script, 4, &want)?;
    }
    Ok(())
}

#[test]
fn each_kind_of_assembler_fault_at_its_line(rt: HostRuntime) -> Result<(), Fail> {
    let alloc = rt.alloc();
    let words = ["pack", "S", "1", "8", "1", "0"];
    for row in ASM_FAULTS.lines() {
        let (line, kind) = row.split_once(" | ").ok_or("a row without a kind")?;
        let text = format!(in alloc; "ecall\nm: ebreak # well\n{line}\necal\n")?;
        let want = format!(in alloc; "refused: asm line 3 {kind}\n")?;
        check_fault(&rt, alloc, &words, &text, 9, &want)?;
    }
    Ok(())
}

/// The three cases of row `usage`, and other words that are no line of the table.
#[test]
fn usage(rt: HostRuntime) -> Result<(), Fail> {
    let alloc = rt.alloc();
    for words in [
        [].as_slice(),
        &["run", "a"],
        &["load", "1", "17"],
        &["script"],
        &["script", "S", "S"],
        &["run", "-", "S", "S"],
        &["solo", "S"],
        &["convert"],
        &["convert", "-", "-"],
        &["llc", "S", "S"],
        &["--version"],
        &["pack", "S", "1", "8", "1", "1"],
        &["pack", "S", "1", "8", "1", "0", "0"],
    ] {
        check_answer(&rt, alloc, "usage", words, b"", 2, "refused: usage\n")?;
    }
    Ok(())
}

/// How many reads a noted depot notes.
const NOTED: usize = 300;

/// One file of so many bytes, all of them number signs, that notes from where each read asks for how much.
#[derive(Drop)]
struct NotedDepot {
    size: u64,
    reads: [(u64, usize); NOTED],
    count: usize,
}

impl Depot for NotedDepot {
    ghost use Rattle.std.specs.Prelude.{None};

    ghost contents = { λ _ _. None };

    ghost faults = { λ _ _. 0 };

    fn read_at(&mut self, _name: &str, at: u64, into: &mut [u8]) -> Result<usize, Failed> {
        if self.count < NOTED {
            self.reads[self.count] = (at, into.len());
            self.count += 1;
        }
        let left = self.size.saturating_sub(at) as usize;
        let n = left.min(into.len());
        for byte in &mut into[..n] {
            *byte = b'#';
        }
        Ok(n)
    }
}

/// Runs a script of this size, and checks how it ends, that it takes so many reads of whole pieces, each from
/// where the one before ended, and then the last.
fn check_reads<R: Threads + Sync + Abort>(
    rt: &R,
    alloc: Global,
    size: u64,
    whole: u16,
    last: (u64, usize),
    code: u8,
) -> Result<(), Fail> {
    let whole = usize::from(whole);
    let mut depot = NotedDepot {
        size,
        reads: [(0, 0); NOTED],
        count: 0,
    };
    let mut out = VecSink::new(alloc, 1 << 12, Vec::new(alloc))?;
    let words = words_of(alloc, &["script", "S"])?;
    let status = sanctum(rt, alloc, &words, &mut depot, &mut out, &OpenGate);
    assert_eq!(rt; status.code(), code, "{size}");
    assert_eq!(rt; depot.count, whole + 1, "{size}");
    assert_eq!(rt; depot.reads.get(whole).copied(), Some(last), "{size}");
    for (k, read) in depot.reads.iter().take(whole).enumerate() {
        assert_eq!(rt; *read, (4096 * k as u64, 4096), "{size}");
    }
    Ok(())
}

/// A file is read in pieces of 4,096 bytes, each from where the last ended, up to its end or to one byte past
/// the limit.
#[test]
fn the_reads_that_one_file_takes(rt: HostRuntime) -> Result<(), Fail> {
    let alloc = rt.alloc();
    for (size, whole, last, code) in [
        (0, 0, (0, 4096), 0),
        (1, 1, (1, 4096), 0),
        (4096, 1, (4096, 4096), 0),
        (4097, 2, (4097, 4096), 0),
        (10_000, 3, (10_000, 4096), 0),
        (1_048_576, 256, (1_048_576, 1), 0),
        (1_048_577, 256, (1_048_576, 1), 4),
        (2_000_000, 256, (1_048_576, 1), 4),
    ] {
        check_reads(&rt, alloc, size, whole, last, code)?;
    }
    Ok(())
}
