//! Edges, worked out by hand from the standard.

use crate::{AmoOp, MulOp, amo, multiply};

const ALL: u64 = 18446744073709551615;

const LEAST: u64 = 9223372036854775808;

const LEAST_WORD: u64 = 18446744071562067968;

#[test]
fn division_edges(rt: HostRuntime) {
    assert_eq!(rt; multiply(MulOp::Mulhu, ALL, ALL), ALL - 1);
    assert_eq!(rt; multiply(MulOp::Div, LEAST, ALL), LEAST);
    assert_eq!(rt; multiply(MulOp::Divu, 5, 0), ALL);
    assert_eq!(rt; multiply(MulOp::Remw, 7, 0), 7);
}

#[test]
fn products(rt: HostRuntime) {
    for (op, a, b, product) in [
        (MulOp::Mul, ALL, ALL, 1),
        (MulOp::Mul, LEAST, 2, 0),
        // -1 times -1 is 1, and -1 times 2^64 - 1 is -(2^64 - 1)
        (MulOp::Mulh, ALL, ALL, 0),
        (MulOp::Mulhsu, ALL, ALL, ALL),
        (MulOp::Mulh, LEAST, LEAST, 4611686018427387904),
        (MulOp::Mulhsu, LEAST, LEAST, 13835058055282163712),
        (MulOp::Mulhsu, 1, ALL, 0),
        (MulOp::Mulhsu, 2, ALL, 1),
        (MulOp::Mulhu, LEAST, LEAST, 4611686018427387904),
        (MulOp::Mulw, 65536, 65536, 0),
        (MulOp::Mulw, 65536, 32768, LEAST_WORD),
        (MulOp::Mulw, 4294967298, 3, 6),
    ] {
        assert_eq!(rt; multiply(op, a, b), product, "at {op:?}");
    }
}

#[test]
fn quotients(rt: HostRuntime) {
    for (op, a, b, answer) in [
        // -7 by 2, where -7 is 2^64 - 7: towards zero, -3 and -1
        (MulOp::Div, 18446744073709551609, 2, 18446744073709551613),
        (MulOp::Rem, 18446744073709551609, 2, ALL),
        (MulOp::Rem, 7, 18446744073709551614, 1),
        (MulOp::Divu, 18446744073709551609, 2, 9223372036854775804),
        (MulOp::Remu, 18446744073709551609, 2, 1),
        (MulOp::Div, 5, 0, ALL),
        (MulOp::Rem, LEAST, 0, LEAST),
        (MulOp::Rem, LEAST, ALL, 0),
        (MulOp::Remu, 5, 0, 5),
        // the least word, written with junk above it
        (MulOp::Divw, 6442450944, ALL, LEAST_WORD),
        (MulOp::Remw, 6442450944, ALL, 0),
        (MulOp::Divw, 4294967289, 2, 18446744073709551613),
        (MulOp::Remw, 4294967289, 2, ALL),
        (MulOp::Divw, 5, 4294967296, ALL),
        (MulOp::Divuw, 5, 0, ALL),
        (MulOp::Divuw, 4294967295, 1, ALL),
        (MulOp::Remuw, 2147483648, 0, LEAST_WORD),
        (MulOp::Remuw, 4294967295, 10, 5),
    ] {
        assert_eq!(rt; multiply(op, a, b), answer, "at {op:?}");
    }
}

#[test]
fn atomic_words(rt: HostRuntime) {
    for (op, old, value, new) in [
        (AmoOp::Swap, 1, ALL, 4294967295),
        (AmoOp::Add, 4294967295, 1, 0),
        (AmoOp::Xor, 4294967311, 5, 10),
        (AmoOp::Or, 12, 4294967306, 14),
        // as signed words 2^32 - 1 is -1, the lesser of it and 1
        (AmoOp::Min, 1, 4294967295, 4294967295),
        (AmoOp::Max, 1, 4294967295, 1),
        (AmoOp::Minu, 1, 4294967295, 1),
        (AmoOp::Maxu, 1, 4294967295, 4294967295),
        (AmoOp::Max, 4294967295, 2147483648, 4294967295),
    ] {
        assert_eq!(rt; amo(op, 4, old, value), new, "at {op:?}");
    }
}

#[test]
fn atomic_double_words(rt: HostRuntime) {
    for (op, old, value, new) in [
        (AmoOp::Swap, 1, ALL, ALL),
        (AmoOp::Add, ALL, 2, 1),
        (AmoOp::And, 12, 10, 8),
        (AmoOp::Min, 1, 4294967295, 1),
        (AmoOp::Min, LEAST, 1, LEAST),
        (AmoOp::Max, LEAST, 1, 1),
        (AmoOp::Minu, LEAST, 1, 1),
        (AmoOp::Maxu, LEAST, 1, LEAST),
    ] {
        assert_eq!(rt; amo(op, 8, old, value), new, "at {op:?}");
    }
}
