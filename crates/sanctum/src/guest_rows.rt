//! The worked rows of guest code, and those of enclaves on a machine with code in its memory, each by its
//! name, by `run` and by `solo` (row `solo-equals-run`), written as `rows` says. Measurements and digests are those of another
//! program, which hashes as the monitor's rules say; all else is worked out by hand.

use crate::rows::{Bench, check_rows};
use std::test::Fail;

/// How the reports of a machine with 16 regions begin, and of one with 8.
const HEAD_16: &str = "sanctum report 1\nmachine cores 1 regions 16 pages 1 shift 0\n";

const HEAD_8: &str = crate::tests::HEAD;

/// An enclave in slot 0 whose page is a copy of page 1, which adds 1 to x5 three times; it is ready to be
/// entered at ticket 20.
const LOADED: &str = "\
block 2 = ok tried r2
block 3 = ok tried r3
block 4 = ok tried r4
block 5 = ok tried r5
flush = ok tried c0
free 2 = ok tried r2 c0
free 3 = ok tried r3 c0
free 4 = ok tried r4 c0
free 5 = ok tried r5 c0
create 0 65536 16384 = ok tried e0
assign 2 0 = ok tried e0 r2
assign 3 0 = ok tried e0 r3
assign 4 0 = ok tried e0 r4
assign 5 0 = ok tried e0 r5
load_table 0 0 2 2 = ok tried e0
load_table 0 65536 1 3 = ok tried e0
load_table 0 65536 0 4 = ok tried e0
load_page 0 65536 5 1 5 > load_page 0 65536 5 1 5 page 0554ac3f8f40f3ec77614743453ad982b1ea52ba8917e3e18eb96dae7b38a9ba = ok tried e0 r1
load_thread 0 0 65536 0 = ok tried e0 t0
init 0 = ok tried e0
";

/// One core, 16 regions of one page; at 0x80001000 `addi x5, x5, 1` three times and `ecall`, at 0x8000a010 the
/// page-table entry 0x200000cf: a leaf, readable, writable and executable, without U, whose page is the first.
const I16: Bench = Bench {
    commands: &[&["run", "I", "S"], &["solo", "I", "S"]],
    image: "\
53414e4354554d0101040000020000000000008000000000000000000000000000100080000000001000000000000000\
9382120093821200938212007300000010a00080000000000800000000000000cf00002000000000",
    head: HEAD_16,
    loaded: LOADED,
};

/// `I16` with a pointer to page 11 in that place, where a leaf of level 1 has a page that is no multiple of 512.
const BAD_SUPERPAGE: Bench = Bench {
    commands: &[&["run", "I", "S"], &["solo", "I", "S"]],
    image: "\
53414e4354554d0101040000030000000000008000000000000000000000000000100080000000001000000000000000\
9382120093821200938212007300000010a00080000000000800000000000000012c00200000000000b0008000000000\
0800000000000000cf04002000000000",
    head: HEAD_16,
    loaded: "",
};

/// The same with the leaf of 2 MiB at the start of DRAM.
const SUPERPAGE: Bench = Bench {
    commands: &[&["run", "I", "S"], &["solo", "I", "S"]],
    image: "\
53414e4354554d0101040000030000000000008000000000000000000000000000100080000000001000000000000000\
9382120093821200938212007300000010a00080000000000800000000000000012c00200000000000b0008000000000\
0800000000000000cf00002000000000",
    head: HEAD_16,
    loaded: "",
};

/// `I16` with an entry that points at its own page.
const ITSELF: Bench = Bench {
    commands: &[&["run", "I", "S"], &["solo", "I", "S"]],
    image: "\
53414e4354554d0101040000020000000000008000000000000000000000000000100080000000001000000000000000\
9382120093821200938212007300000010a000800000000008000000000000000128002000000000",
    head: HEAD_16,
    loaded: "",
};

/// `I16` with an entry that points past DRAM.
const PAST_DRAM: Bench = Bench {
    commands: &[&["run", "I", "S"], &["solo", "I", "S"]],
    image: "\
53414e4354554d0101040000020000000000008000000000000000000000000000100080000000001000000000000000\
9382120093821200938212007300000010a000800000000008000000000000000140002000000000",
    head: HEAD_16,
    loaded: "",
};

/// `addi x17, x0, 4`, `ecall` and `ebreak`, on 8 regions: row `pack-three`.
const FLUSHES: Bench = Bench {
    commands: &[&["run", "I", "S"], &["solo", "I", "S"]],
    image: "\
53414e4354554d0101030000010000000000008000000000000000000000000000000080000000001000000000000000\
93084000730000007300100000000000",
    head: HEAD_8,
    loaded: "",
};

/// `ld x5, 0(x12)` and a jump back to it, on 8 regions.
const LOADS: Bench = Bench {
    commands: &[&["run", "I", "S"], &["solo", "I", "S"]],
    image: "\
53414e4354554d0101030000010000000000008000000000000000000000000000000080000000000800000000000000\
833206006ff0dfff",
    head: HEAD_8,
    loaded: "",
};

/// The rows on `I16`.
const ROWS: &str = "\
14 delete-blocks
delete 0 = ok tried e0 r2 r3 r4 r5
create 0 65536 16384 = ok tried e0
load_table 0 0 2 2 = invalid_state tried e0
: region 2 blocked e0 since 11 at 15

20 twin-enclaves
block 6 = ok tried r6
block 7 = ok tried r7
block 8 = ok tried r8
block 9 = ok tried r9
flush = ok tried c0
free 6 = ok tried r6 c0
free 7 = ok tried r7 c0
free 8 = ok tried r8 c0
free 9 = ok tried r9 c0
create 1 65536 16384 = ok tried e1
assign 6 1 = ok tried e1 r6
assign 7 1 = ok tried e1 r7
assign 8 1 = ok tried e1 r8
assign 9 1 = ok tried e1 r9
load_table 1 0 2 6 = ok tried e1
load_table 1 65536 1 7 = ok tried e1
load_table 1 65536 0 8 = ok tried e1
load_page 1 65536 9 1 5 > load_page 1 65536 9 1 5 page 0554ac3f8f40f3ec77614743453ad982b1ea52ba8917e3e18eb96dae7b38a9ba = ok tried e1 r1
load_thread 1 1 65536 0 = ok tried e1 t1
init 1 = ok tried e1
: enclave 0 initialized base 65536 size 16384 threads 1 measure c0aa7bece177604cc47ba035ca81e488c8dfe765b1a1b89a6fd3af296bb2e639
: enclave 1 initialized base 65536 size 16384 threads 1 measure c0aa7bece177604cc47ba035ca81e488c8dfe765b1a1b89a6fd3af296bb2e639

18 page-below-next
load_page 0 69632 5 1 5 = invalid_state tried e0 r1
: enclave 0 loading base 65536 size 16384 threads 0 measure 617f3c429dfa08b4772bb21cd42e5e103ea3d9e6248a9cf8979f2302177e8dc2

20 self-mail
enter 0 0 = ok tried e0 t0
accept 0 0 = ok tried e0
send 0 0 7 8 9 10 = ok tried e0
read 0 = ok 7 8 9 10 5503530556865620672 9864151789331315652 11148838660846641096 4172218278135976815 tried e0
read 0 = invalid_state tried e0
exit = ok tried t0
: mailbox 0 0 closed

20 tick-and-restore
enter 0 0 = ok tried e0 t0
run 3 >
! touch 2 11
! touch 3 12
! touch 4 13
! touch 5 14
tick > aex 65548 0 0 0 0 3 0 0 0 0 0 0 0 0 0 0 0 0 0 0 0 0 0 0 0 0 0 0 0 0 0 0 9223372036854775813 = ok tried t0
enter 0 0 = ok tried e0 t0
restore = ok 22 tried t0
restore = invalid_state tried t0
exit = ok tried t0

20 enclave-blocks-own-region
enter 0 0 = ok tried e0 t0
block 4 = ok tried e0 r4
load 65536 >
! touch 2 11
! touch 3 12
> aex 65536 0 0 0 0 0 0 0 0 0 0 0 0 0 0 0 0 0 0 0 0 0 0 0 0 0 0 0 0 0 0 0 5 = ok tried t0
delete 0 = invalid_state tried e0 r2 r3 r5
delete_thread 0 0 = ok tried e0 t0
delete 0 = ok tried e0 r2 r3 r5
region_info 4 = ok 2 0 13 22 tried r4 # blocked, of e0, since 13, at 22
flush = ok tried c0
free 4 = ok tried r4 c0
: region 4 free

0 create-overflow
ecall 6 0 4096 18446744073709547520 > create 0 4096 18446744073709547520 = invalid_value tried

20 offer-and-accept
block 12 = ok tried r12
flush = ok tried c0
free 12 = ok tried r12 c0
assign 12 0 = ok tried e0 r12
region_info 12 = ok 3 0 0 24 tried r12
enter 0 0 = ok tried e0 t0
accept_region 12 = ok tried e0 r12
accept_region 12 = invalid_state tried e0 r12
exit = ok tried t0
enclave_info 0 = ok 2 65536 16384 4156 5503530556865620672 9864151789331315652 11148838660846641096 4172218278135976815 tried e0
: region 12 owned e0 since 27

20 offer-withdrawn
block 12 = ok tried r12
flush = ok tried c0
free 12 = ok tried r12 c0
assign 12 0 = ok tried e0 r12
block 12 = ok tried r12
free 12 = not_flushed tried r12 c0
: region 12 blocked e0 since 24 at 25

18 reserved-page
reserve 0 69632 12 3 = ok tried e0
load_thread 0 0 65536 0 = ok tried e0 t0
init 0 = ok tried e0
enter 0 0 = ok tried e0 t0
load 69632 >
! touch 2 11
! touch 3 12
! touch 4 13
> aex 65536 0 0 0 0 0 0 0 0 0 0 0 0 0 0 0 0 0 0 0 0 0 0 0 0 0 0 0 0 0 0 0 5 = ok tried t0
block 12 = ok tried r12
flush = ok tried c0
free 12 = ok tried r12 c0
assign 12 0 = ok tried e0 r12
enter 0 0 = ok tried e0 t0
accept_region 12 = ok tried e0 r12
store 69632 7 >
! touch 2 11
! touch 3 12
! touch 4 13
! touch 12 29
exit = ok tried t0

20 leaf-without-user
set_satp 0x800000000008000a > set_satp 9223372036855300106 = ok tried
enter 0 0 = ok tried e0 t0
load 0x80000000 >
! touch 10 0
> aex 65536 0 0 0 0 0 0 0 0 0 0 0 0 0 0 0 0 0 0 0 0 0 0 0 0 0 0 0 0 0 0 0 13 = ok tried t0
load 0x80000000 >
! touch 10 0
! touch 0 0
";

/// The other rows, each on an image of its own.
const MISALIGNED: &str = "\
0 misaligned-superpage
set_satp 0x800000000008000a > set_satp 9223372036855300106 = ok tried
load 0x80000000 >
! touch 10 0
! touch 11 0
! trap 2 13 2147483648
";

const ALIGNED: &str = "\
0 misaligned-superpage, with a leaf that is not
set_satp 0x800000000008000a > set_satp 9223372036855300106 = ok tried
load 0x80000000 >
! touch 10 0
! touch 11 0
! touch 0 0
load 0x80003000 >
! touch 3 0
";

const POINTS_AT_ITSELF: &str = "\
0 entry-points-at-itself
set_satp 0x800000000008000a > set_satp 9223372036855300106 = ok tried
load 0x80402000 >
! touch 10 0
! trap 2 13 2151686144
";

const WALKS_PAST_DRAM: &str = "\
0 walk-past-dram
set_satp 0x800000000008000a > set_satp 9223372036855300106 = ok tried
load 0x80000000 >
! touch 10 0
! trap 2 5 2147483648
";

const GUEST_FLUSH: &str = "\
0 guest-flush
run 10 >
! touch 0 0
> flush = ok tried c0
! touch 0 0
! trap 1 3 2147483656
";

const RUN_OUT: &str = "\
0 answers-run-out
reg 12 0x80001000 >
run 1000000 >
! touch 0 0
! touch 1 0
! limit 2
flush >
";

#[test]
fn rows_of_enclaves_with_code(rt: HostRuntime) -> Result<(), Fail> {
    check_rows(&rt, rt.alloc(), &I16, ROWS)
}

#[test]
fn rows_of_walks(rt: HostRuntime) -> Result<(), Fail> {
    let alloc = rt.alloc();
    check_rows(&rt, alloc, &BAD_SUPERPAGE, MISALIGNED)?;
    check_rows(&rt, alloc, &SUPERPAGE, ALIGNED)?;
    check_rows(&rt, alloc, &ITSELF, POINTS_AT_ITSELF)?;
    check_rows(&rt, alloc, &PAST_DRAM, WALKS_PAST_DRAM)
}

/// Row `answers-run-out` has a line `flush` behind the run, which is not carried out.
#[test]
fn rows_of_code_of_the_os(rt: HostRuntime) -> Result<(), Fail> {
    check_rows(&rt, rt.alloc(), &FLUSHES, GUEST_FLUSH)?;
    check_rows(&rt, rt.alloc(), &LOADS, RUN_OUT)
}
