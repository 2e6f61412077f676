//! Rows of refusals, written as `rows` says: how loads are refused until all is there, the last
//! value and the first beyond it of each argument, and who may make which call.

use crate::enclave_rows::PLAIN;
use crate::rows::check_rows;
use std::test::Fail;

/// Pages, tables and reserved pages.
const LOADS: &str = "\
10 loads are refused until all is there; page 5 is the first that the enclave gets
load_page 1 65536 5 2 5 = invalid_state tried e1 r2 # slot 1 is not loading
load_page 0 65536 5 2 5 = invalid_state tried e0 r2 # page 5 is not the enclave's
load_table 0 0 2 2 = invalid_state tried e0 # nor is page 2
assign 5 0 = ok tried e0 r5
load_page 0 81920 5 2 5 = invalid_state tried e0 r2 # behind the range
load_page 0 61440 5 2 5 = invalid_state tried e0 r2 # before the range
load_page 0 65536 5 2 5 = invalid_state tried e0 r2 # no root
load_table 0 65536 1 5 = invalid_state tried e0 # no root
assign 2 0 = ok tried e0 r2
load_table 0 0 2 2 = ok tried e0
load_table 0 0 2 5 = invalid_state tried e0 # a root is there
load_page 0 65536 2 3 5 = invalid_state tried e0 r3 # page 2 is taken
load_page 0 65536 3 4 5 = invalid_state tried e0 r4 # page 3 is not the enclave's
load_page 0 81920 5 3 5 = invalid_state tried e0 r3 # behind the range
load_page 0 65536 5 3 5 = access_denied tried e0 r3 # page 3 is nobody's: before the tables are looked at
load_page 0 65536 5 2 5 = access_denied tried e0 r2 # page 2 is the enclave's
load_page 0 65536 5 1 5 = invalid_state tried e0 r1 # no table of level 1
load_table 0 65536 0 5 = invalid_state tried e0 # no table of level 1
assign 3 0 = ok tried e0 r3
load_table 0 65536 1 2 = invalid_state tried e0 # page 2 is taken
load_table 0 65536 1 4 = invalid_state tried e0 # page 4 is not the enclave's
load_table 0 81920 1 3 = invalid_state tried e0 # behind the range
load_table 0 65536 1 3 = ok tried e0
load_table 0 65536 1 5 = invalid_state tried e0 # a table of level 1 is there
load_page 0 65536 5 4 5 = access_denied tried e0 r4 # page 4 is nobody's
load_page 0 65536 5 1 5 = invalid_state tried e0 r1 # no table of level 0
assign 4 0 = ok tried e0 r4
load_table 0 61440 0 4 = invalid_state tried e0 # before the range
load_table 0 65536 0 4 = ok tried e0
load_table 0 69632 0 5 = invalid_state tried e0 # a table of level 0 is there
load_page 0 65536 5 1 5 > load_page 0 65536 5 1 5 page ad7facb2586fc6e966c004d7d1d16b024f5805ff7cb47c7a85dabd8b48892ca7 = ok tried e0 r1
block 6 = ok tried r6
block 7 = ok tried r7
flush = ok tried c0
free 6 = ok tried r6 c0
assign 6 0 = ok tried e0 r6
load_page 0 65536 6 7 5 = access_denied tried e0 r7 # page 7 was the OS's, and is blocked: before the entry is looked at
load_page 0 65536 6 1 5 = invalid_state tried e0 r1 # a page is there
load_page 0 77824 6 0 1 > load_page 0 77824 6 0 1 page ad7facb2586fc6e966c004d7d1d16b024f5805ff7cb47c7a85dabd8b48892ca7 = ok tried e0 r0
load_thread 0 0 65536 0 = ok tried e0 t0
init 0 = ok tried e0
load_page 0 73728 7 1 5 = invalid_state tried e0 r1 # no longer loading
load_table 0 0 2 7 = invalid_state tried e0 # no longer loading
: enclave 0 initialized base 65536 size 16384 threads 1 measure 4182e5ff8b6050874dd20281bcc69087d1fc5bb8712592373bdbf63da6194901

18 a reserved page is no page of the enclave's own
block 7 = ok tried r7
flush = ok tried c0
free 7 = ok tried r7 c0
assign 7 0 = ok tried e0 r7
reserve 1 69632 6 3 = invalid_state tried e1 # slot 1 is not loading
reserve 0 69632 5 3 = invalid_state tried e0 # page 5 is taken
reserve 0 69632 7 3 = invalid_state tried e0 # page 7 is the enclave's
reserve 0 81920 6 3 = invalid_state tried e0 # behind the range
reserve 0 61440 6 3 = invalid_state tried e0 # before the range
reserve 0 65536 6 3 = invalid_state tried e0 # a page is there
reserve 0 69632 6 3 = ok tried e0
reserve 0 73728 6 3 = invalid_state tried e0 # page 6 is taken
load_page 0 69632 7 1 5 = invalid_state tried e0 r1 # a reserved page is there
load_page 0 73728 7 1 3 > load_page 0 73728 7 1 3 page ad7facb2586fc6e966c004d7d1d16b024f5805ff7cb47c7a85dabd8b48892ca7 = ok tried e0 r1
: enclave 0 loading base 65536 size 16384 threads 0 measure c16de5faa72cb50223825a2049701af410317497fcd02294c29fff99904a8bcc

10 nothing is reserved without tables
assign 2 0 = ok tried e0 r2
assign 3 0 = ok tried e0 r3
assign 4 0 = ok tried e0 r4
reserve 0 65536 6 3 = invalid_state tried e0 # no root
load_table 0 0 2 2 = ok tried e0
reserve 0 65536 6 3 = invalid_state tried e0 # no table of level 1
load_table 0 65536 1 3 = ok tried e0
reserve 0 65536 6 3 = invalid_state tried e0 # no table of level 0
load_table 0 65536 0 4 = ok tried e0
reserve 0 65536 6 3 = ok tried e0
: enclave 0 loading base 65536 size 16384 threads 0 measure e94a0d12dc73d8322c92896896237aa56c58f25c1bff731994e7305929c70ca3
";

/// The bounds of arguments.
const BOUNDS: &str = "\
0 bounds of regions and slots
block 0 = invalid_value tried
block 1 = ok tried r1
block 7 = ok tried r7
block 8 = invalid_value tried
free 0 = invalid_value tried
free 1 = not_flushed tried r1 c0
free 7 = not_flushed tried r7 c0
free 8 = invalid_value tried
assign 0 0 = invalid_value tried
assign 1 7 = invalid_state tried e7 r1
assign 1 8 = invalid_value tried
assign 7 18446744073709551614 = invalid_value tried
assign 7 os > assign 7 18446744073709551615 = invalid_state tried r7
assign 8 os > assign 8 18446744073709551615 = invalid_value tried
region_info 0 = ok 1 18446744073709551615 0 0 tried r0
region_info 7 = ok 2 18446744073709551615 0 3 tried r7
region_info 8 = invalid_value tried
init 7 = invalid_state tried e7
init 8 = invalid_value tried
delete 7 = invalid_state tried e7
delete 8 = invalid_value tried
delete_thread 7 15 = invalid_state tried e7 t15
delete_thread 7 16 = invalid_value tried
delete_thread 8 15 = invalid_value tried
enter 7 15 = invalid_state tried e7 t15
enter 7 16 = invalid_value tried
enter 8 15 = invalid_value tried
enclave_info 7 = ok 0 0 0 0 0 0 0 0 tried e7
enclave_info 8 = invalid_value tried
load_thread 7 15 18446744073709551612 0 = invalid_state tried e7 t15
load_thread 7 15 18446744073709551613 0 = invalid_value tried
load_thread 7 15 2 0 = invalid_value tried
load_thread 7 16 0 0 = invalid_value tried
load_thread 8 15 0 0 = invalid_value tried

0 bounds of ranges
create 7 0 274877906944 = ok tried e7
create 6 274877902848 4096 = ok tried e6
create 5 4096 274877902848 = ok tried e5
create 4 4096 274877906944 = invalid_value tried
create 4 274877906944 4096 = invalid_value tried
create 4 8192 18446744073709543424 = invalid_value tried
create 4 0 0 = invalid_value tried
create 4 0 6144 = invalid_value tried
create 4 2048 4096 = invalid_value tried
create 8 0 4096 = invalid_value tried
set_satp 0 = ok tried
set_satp 0x8000000000000000 > set_satp 9223372036854775808 = ok tried
set_satp 0x80000fffffffffff > set_satp 9223389629040820223 = ok tried
set_satp 0x8000100000000000 > set_satp 9223389629040820224 = invalid_value tried
set_satp 0x8800000000000000 > set_satp 9799832789158199296 = invalid_value tried
set_satp 0x9000000000000000 > set_satp 10376293541461622784 = invalid_value tried
set_satp 0x7000000000000000 > set_satp 8070450532247928832 = invalid_value tried
set_satp 1 = invalid_value tried

0 bounds of loads
load_table 7 274877902848 1 7 = invalid_state tried e7
load_table 7 0 2 7 = invalid_state tried e7
load_table 7 4096 2 7 = invalid_value tried
load_table 7 0 3 7 = invalid_value tried
load_table 7 274877906944 1 7 = invalid_value tried
load_table 7 2048 0 7 = invalid_value tried
load_table 7 0 0 8 = invalid_value tried
load_table 8 0 0 7 = invalid_value tried
load_page 7 274877902848 7 7 1 = invalid_state tried e7 r7
load_page 7 0 7 7 3 = invalid_state tried e7 r7
load_page 7 0 7 7 4 = invalid_state tried e7 r7
load_page 7 0 7 7 5 = invalid_state tried e7 r7
load_page 7 0 7 7 7 = invalid_state tried e7 r7
load_page 7 0 7 7 0 = invalid_value tried
load_page 7 0 7 7 2 = invalid_value tried
load_page 7 0 7 7 6 = invalid_value tried
load_page 7 0 7 7 8 = invalid_value tried
load_page 7 0 7 8 1 = invalid_value tried
load_page 7 0 8 7 1 = invalid_value tried
load_page 7 274877906944 7 7 1 = invalid_value tried
load_page 7 4097 7 7 1 = invalid_value tried
load_page 8 0 7 7 1 = invalid_value tried
reserve 7 274877902848 7 1 = invalid_state tried e7
reserve 7 0 7 3 = invalid_state tried e7
reserve 7 0 7 4 = invalid_state tried e7
reserve 7 0 7 5 = invalid_state tried e7
reserve 7 0 7 7 = invalid_state tried e7
reserve 7 0 7 0 = invalid_value tried
reserve 7 0 7 2 = invalid_value tried
reserve 7 0 7 6 = invalid_value tried
reserve 7 0 7 8 = invalid_value tried
reserve 7 0 8 1 = invalid_value tried
reserve 7 274877906944 7 1 = invalid_value tried
reserve 7 4097 7 1 = invalid_value tried
reserve 8 0 7 1 = invalid_value tried

20 bounds inside an enclave
enter 0 0 = ok tried e0 t0
accept 1 7 = ok tried e0
accept 2 7 = invalid_value tried
accept 1 8 = invalid_value tried
send 7 1 0 0 0 0 = invalid_state tried e0 e7
send 7 2 0 0 0 0 = invalid_value tried
send 8 1 0 0 0 0 = invalid_value tried
read 1 = invalid_state tried e0
read 2 = invalid_value tried
accept_region 0 = invalid_value tried
accept_region 1 = invalid_state tried e0 r1
accept_region 7 = invalid_state tried e0 r7
accept_region 8 = invalid_value tried
block 0 = invalid_value tried
block 7 = access_denied tried e0 r7
block 8 = invalid_value tried
region_info 8 = invalid_value tried
enclave_info 8 = invalid_value tried

20 who may call: the mode comes before the arguments
exit = access_denied tried
restore = access_denied tried
accept 9 9 = access_denied tried
send 9 9 0 0 0 0 = access_denied tried
read 9 = access_denied tried
accept_region 0 = access_denied tried
enter 0 0 = ok tried e0 t0
free 0 = access_denied tried
assign 0 0 = access_denied tried
flush = access_denied tried
create 9 0 0 = access_denied tried
load_table 9 0 3 9 = access_denied tried
load_page 9 0 9 9 0 = access_denied tried
load_thread 9 99 1 0 = access_denied tried
init 9 = access_denied tried
delete_thread 9 99 = access_denied tried
delete 9 = access_denied tried
enter 9 99 = access_denied tried
set_satp 1 = access_denied tried
reserve 9 0 9 0 = access_denied tried
ecall 24 > ecall 24 0 0 0 0 0 0 = unsupported tried
ecall 0 > ecall 0 0 0 0 0 0 0 = unsupported tried
";

#[test]
fn loads_are_refused(rt: HostRuntime) -> Result<(), Fail> {
    check_rows(&rt, rt.alloc(), &PLAIN, LOADS)
}

#[test]
fn values_out_of_range_are_refused(rt: HostRuntime) -> Result<(), Fail> {
    check_rows(&rt, rt.alloc(), &PLAIN, BOUNDS)
}
