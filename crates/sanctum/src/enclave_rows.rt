//! The worked rows of enclaves, mail and offers that a script on the plain machine can show, each by its
//! name, and rows of the same kind that are this project's own, written as `rows` says. Measurements and
//! digests are those of another program, which hashes as the monitor's rules say; replies and tried objects
//! are worked out by those rules.

use crate::rows::{Bench, check_rows};
use crate::tests::HEAD;
use std::test::Fail;

/// The plain machine, by each command that has it.
pub const PLAIN: Bench = Bench {
    commands: &[&["script", "S"], &["run", "-", "S"], &["solo", "-", "S"]],
    image: "",
    head: HEAD,
    loaded: LOADED,
};

/// An enclave in slot 0, which is ready to be entered at ticket 20; the digest is that of a page of zeros.
const LOADED: &str = "\
block 2 = ok tried r2
block 3 = ok tried r3
block 4 = ok tried r4
block 5 = ok tried r5
flush = ok tried c0
free 2 = ok tried r2 c0
free 3 = ok tried r3 c0
free 4 = ok tried r4 c0
free 5 = ok tried r5 c0
create 0 65536 16384 = ok tried e0
assign 2 0 = ok tried e0 r2
assign 3 0 = ok tried e0 r3
assign 4 0 = ok tried e0 r4
assign 5 0 = ok tried e0 r5
load_table 0 0 2 2 = ok tried e0
load_table 0 65536 1 3 = ok tried e0
load_table 0 65536 0 4 = ok tried e0
load_page 0 65536 5 1 5 > load_page 0 65536 5 1 5 page ad7facb2586fc6e966c004d7d1d16b024f5805ff7cb47c7a85dabd8b48892ca7 = ok tried e0 r1
load_thread 0 0 65536 0 = ok tried e0 t0
init 0 = ok tried e0
";

/// The rows of the product's text. Those of offers have region 6 in place of 12, and of the twins one comes
/// after the other: the plain machine has 8 regions.
const ROWS: &str = "\
14 delete-blocks-by-script
delete 0 = ok tried e0 r2 r3 r4 r5
create 0 65536 16384 = ok tried e0
load_table 0 0 2 2 = invalid_state tried e0
: region 2 blocked e0 since 11 at 15

18 page-below-next-by-script
load_page 0 69632 5 1 5 = invalid_state tried e0 r1
: enclave 0 loading base 65536 size 16384 threads 0 measure 15c9b5b0536aa8f735d55261e533815ca62954304b0960217cda5e03a98a5fca

18 init-without-thread
init 0 = invalid_state tried e0

20 tick-and-restore-by-script
enter 0 0 = ok tried e0 t0
tick > aex 65536 0 0 0 0 0 0 0 0 0 0 0 0 0 0 0 0 0 0 0 0 0 0 0 0 0 0 0 0 0 0 0 9223372036854775813 = ok tried t0
enter 0 0 = ok tried e0 t0
restore = ok 22 tried t0
restore = invalid_state tried t0
exit = ok tried t0

20 delete-from-inside
enter 0 0 = ok tried e0 t0
delete 0 = access_denied tried
: core 0 in e0 t0 flushed 5

20 self-mail
enter 0 0 = ok tried e0 t0
accept 0 0 = ok tried e0
send 0 0 7 8 9 10 = ok tried e0
read 0 = ok 7 8 9 10 3113051963822778714 2761982930798163142 370711500173530415 18329068154568915154 tried e0
read 0 = invalid_state tried e0
exit = ok tried t0
: mailbox 0 0 closed
: enclave 0 initialized base 65536 size 16384 threads 1 measure 5a29fd7644c8332bc6b4ea89d78854262fd5fe3125082505d238010160ee5dfe

20 offer-and-accept
block 6 = ok tried r6
flush = ok tried c0
free 6 = ok tried r6 c0
assign 6 0 = ok tried e0 r6
region_info 6 = ok 3 0 0 24 tried r6
enter 0 0 = ok tried e0 t0
accept_region 6 = ok tried e0 r6
accept_region 6 = invalid_state tried e0 r6
exit = ok tried t0
enclave_info 0 = ok 2 65536 16384 124 3113051963822778714 2761982930798163142 370711500173530415 18329068154568915154 tried e0
: region 6 owned e0 since 27

20 offer-withdrawn
block 6 = ok tried r6
flush = ok tried c0
free 6 = ok tried r6 c0
assign 6 0 = ok tried e0 r6
block 6 = ok tried r6
free 6 = not_flushed tried r6 c0
: region 6 blocked e0 since 24 at 25

20 twin-enclaves, one after the other: its twin in slot 1 has other pages and the measurement of self-mail
delete_thread 0 0 = ok tried e0 t0
delete 0 = ok tried e0 r2 r3 r4 r5
block 6 = ok tried r6
block 7 = ok tried r7
flush = ok tried c0
free 4 = ok tried r4 c0
free 5 = ok tried r5 c0
free 6 = ok tried r6 c0
free 7 = ok tried r7 c0
create 1 65536 16384 = ok tried e1
assign 4 1 = ok tried e1 r4
assign 5 1 = ok tried e1 r5
assign 6 1 = ok tried e1 r6
assign 7 1 = ok tried e1 r7
load_table 1 0 2 4 = ok tried e1
load_table 1 65536 1 5 = ok tried e1
load_table 1 65536 0 6 = ok tried e1
load_page 1 65536 7 1 5 > load_page 1 65536 7 1 5 page ad7facb2586fc6e966c004d7d1d16b024f5805ff7cb47c7a85dabd8b48892ca7 = ok tried e1 r1
load_thread 1 1 65536 0 = ok tried e1 t1
init 1 = ok tried e1
: enclave 1 initialized base 65536 size 16384 threads 1 measure 5a29fd7644c8332bc6b4ea89d78854262fd5fe3125082505d238010160ee5dfe

0 odd-calls
ecall 99 > ecall 99 0 0 0 0 0 0 = unsupported tried
ecall 15 > ecall 15 0 0 0 0 0 0 = unsupported tried
exit = access_denied tried
set_satp 0x8000100000000000 > set_satp 9223389629040820224 = invalid_value tried

0 create-overflow
ecall 6 0 4096 18446744073709547520 > create 0 4096 18446744073709547520 = invalid_value tried
";

/// Mail between two enclaves; threads and deletes; offers; ticks.
const OWN_ROWS: &str = "\
20 mail in both slot orders, each with the measurement of the sender
block 6 = ok tried r6
flush = ok tried c0
free 6 = ok tried r6 c0
create 1 4096 8192 = ok tried e1
assign 6 1 = ok tried e1 r6
load_table 1 0 2 6 = ok tried e1
load_thread 1 1 4096 0 = ok tried e1 t1
init 1 = ok tried e1
enter 1 1 = ok tried e1 t1
send 0 0 1 2 3 4 = invalid_state tried e0 e1
accept 1 0 = ok tried e1
exit = ok tried t1
enter 0 0 = ok tried e0 t0
accept 0 2 = ok tried e0
send 1 0 7 8 9 10 = invalid_state tried e0 e1
send 1 1 7 8 9 18446744073709551615 = ok tried e0 e1
send 1 1 7 8 9 10 = invalid_state tried e0 e1
send 3 1 7 8 9 10 = invalid_state tried e0 e3
exit = ok tried t0
enter 1 1 = ok tried e1 t1
send 0 0 11 12 13 14 = invalid_state tried e0 e1
read 1 = ok 7 8 9 18446744073709551615 3113051963822778714 2761982930798163142 370711500173530415 18329068154568915154 tried e1
read 1 = invalid_state tried e1
exit = ok tried t1
enter 0 0 = ok tried e0 t0
accept 0 1 = ok tried e0
exit = ok tried t0
enter 1 1 = ok tried e1 t1
send 0 0 11 12 13 14 = ok tried e0 e1
: mailbox 0 0 full 1 11 12 13 14 63acbd947602071a8e93a9eb1505c2a110f95d5d9c69e31c0fc39495185c8b1f
: mailbox 0 1 closed
: enclave 1 initialized base 4096 size 8192 threads 1 measure 63acbd947602071a8e93a9eb1505c2a110f95d5d9c69e31c0fc39495185c8b1f
: mailbox 1 0 closed
: mailbox 1 1 closed

20 threads and deletes: a slot of another enclave, and an enclave that has threads
block 6 = ok tried r6
flush = ok tried c0
free 6 = ok tried r6 c0
create 1 4096 8192 = ok tried e1
init 1 = invalid_state tried e1
assign 6 1 = ok tried e1 r6
load_table 1 0 2 6 = ok tried e1
load_thread 1 0 4096 0 = invalid_state tried e1 t0
load_thread 1 1 4096 0 = ok tried e1 t1
enter 1 1 = invalid_state tried e1 t1
init 1 = ok tried e1
load_thread 1 2 4096 0 = invalid_state tried e1 t2
delete_thread 0 1 = invalid_state tried e0 t1
delete_thread 1 0 = invalid_state tried e1 t0
delete_thread 1 2 = invalid_state tried e1 t2
enter 0 1 = invalid_state tried e0 t1
enter 1 0 = invalid_state tried e1 t0
enter 0 2 = invalid_state tried e0 t2
enter 2 0 = invalid_state tried e2 t0
delete 0 = invalid_state tried e0 r2 r3 r4 r5
delete_thread 0 0 = ok tried e0 t0
enter 0 0 = invalid_state tried e0 t0
delete 0 = ok tried e0 r2 r3 r4 r5
delete 0 = invalid_state tried e0
delete 1 = invalid_state tried e1 r6
: region 5 blocked e0 since 14 at 43
: thread 1 ready e1 saved 0

20 an enclave blocks a region of its own
enter 0 0 = ok tried e0 t0
block 4 = ok tried e0 r4
block 4 = invalid_state tried e0 r4
block 6 = access_denied tried e0 r6
region_info 4 = ok 2 0 13 22 tried r4
exit = ok tried t0
block 5 = access_denied tried r5
delete 0 = invalid_state tried e0 r2 r3 r5
delete_thread 0 0 = ok tried e0 t0
delete 0 = ok tried e0 r2 r3 r5
free 4 = not_flushed tried r4 c0
flush = ok tried c0
free 4 = ok tried r4 c0
: region 2 blocked e0 since 11 at 30
: region 4 free

20 an offer outlives a delete, and is not another slot's
block 6 = ok tried r6
block 7 = ok tried r7
flush = ok tried c0
free 6 = ok tried r6 c0
free 7 = ok tried r7 c0
assign 6 0 = ok tried e0 r6
delete_thread 0 0 = ok tried e0 t0
delete 0 = ok tried e0 r2 r3 r4 r5
flush = ok tried c0
free 2 = ok tried r2 c0
create 0 65536 16384 = ok tried e0
create 1 4096 8192 = ok tried e1
assign 2 0 = ok tried e0 r2
assign 7 1 = ok tried e1 r7
load_table 0 0 2 2 = ok tried e0
load_table 1 0 2 7 = ok tried e1
load_thread 0 0 65536 0 = ok tried e0 t0
load_thread 1 1 4096 0 = ok tried e1 t1
init 0 = ok tried e0
init 1 = ok tried e1
assign 6 1 = invalid_state tried e1 r6
enter 1 1 = ok tried e1 t1
accept_region 6 = access_denied tried e1 r6
accept_region 5 = invalid_state tried e1 r5
block 6 = access_denied tried e1 r6
exit = ok tried t1
enter 0 0 = ok tried e0 t0
block 6 = access_denied tried e0 r6
accept_region 6 = ok tried e0 r6
enclave_info 0 = ok 2 65536 16384 68 15293023729609816578 7648249870798932560 15237509200187761133 16475284502180298289 tried e0
block 6 = ok tried e0 r6
enclave_info 0 = ok 2 65536 16384 4 15293023729609816578 7648249870798932560 15237509200187761133 16475284502180298289 tried e0
: region 6 blocked e0 since 49 at 51

18 what a tick saves, and what a restore gives back; x10 tells the thread whether something is saved
load_thread 0 0 65540 4096 = ok tried e0 t0
init 0 = ok tried e0
tick >
pc 16 >
reg 5 6 >
enter 0 0 = ok tried e0 t0
restore = invalid_state tried t0
pc 16 >
reg 5 6 >
tick > aex 65540 0 4096 0 0 0 0 0 0 0 0 0 0 0 0 0 0 0 0 0 0 0 0 0 0 0 0 0 0 0 0 0 9223372036854775813 = ok tried t0
enter 0 0 = ok tried e0 t0
restore = ok 23 tried t0
restore = invalid_state tried t0
tick > aex 65540 0 4096 0 0 0 0 0 0 0 0 0 0 0 0 0 0 0 0 0 0 0 0 0 0 0 0 0 0 0 0 0 9223372036854775813 = ok tried t0
enter 0 0 = ok tried e0 t0
exit = ok tried t0
enter 0 0 = ok tried e0 t0
tick > aex 65540 0 4096 0 0 0 0 0 0 0 1 0 0 0 0 0 0 0 0 0 0 0 0 0 0 0 0 0 0 0 0 0 9223372036854775813 = ok tried t0
: thread 0 ready e0 saved 31
: core 0 os flushed 5
";

#[test]
fn worked_rows(rt: HostRuntime) -> Result<(), Fail> {
    check_rows(&rt, rt.alloc(), &PLAIN, ROWS)
}

#[test]
fn rows_of_mail_threads_offers_and_ticks(rt: HostRuntime) -> Result<(), Fail> {
    check_rows(&rt, rt.alloc(), &PLAIN, OWN_ROWS)
}
