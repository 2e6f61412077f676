//! The parts of a text as a reader takes them, one after the other.

use crate::{
    Class, all_ascii, before_comment, canonical_number, capped_decimal, capped_unsigned,
    count_words, decimal_number, next_line, next_word, unsigned_number,
};
use std::test::Fail;

#[test]
fn lines_end_at_line_feeds(rt: HostRuntime) -> Result<(), Fail> {
    let mut rest = b"one\r\ntwo\n\nfour\r".as_slice();
    for want in [b"one".as_slice(), b"two", b"", b"four\r"] {
        assert!(rt; !rest.is_empty());
        let (line, behind) = next_line(rest);
        assert_eq!(rt; line, want);
        rest = behind;
    }
    assert!(rt; rest.is_empty());
    Ok(())
}

#[test]
fn words_stand_between_blanks(rt: HostRuntime) -> Result<(), Fail> {
    let line = b" \tblock  3\t# one word";
    assert!(rt; all_ascii(line));
    assert!(rt; !all_ascii(b"caf\xc3\xa9"));
    let text = before_comment(line);
    assert_eq!(rt; count_words(text), 2);
    let (first, rest) = next_word(text).expect(&rt, "a word");
    assert_eq!(rt; first, b"block".as_slice());
    let (second, rest) = next_word(rest).expect(&rt, "a word");
    assert_eq!(rt; second, b"3".as_slice());
    assert!(rt; next_word(rest).is_none());
    Ok(())
}

#[test]
fn numbers_have_a_most(rt: HostRuntime) -> Result<(), Fail> {
    assert_eq!(rt; decimal_number(b"0015", 15), Some(15));
    assert_eq!(rt; decimal_number(b"16", 15), None);
    assert_eq!(rt; decimal_number(b"", 15), None);
    assert_eq!(rt;
        unsigned_number(b"0xfFfFfFfFfFfFfFfF", u64::MAX),
        Some(u64::MAX)
    );
    assert_eq!(rt; unsigned_number(b"18446744073709551616", u64::MAX), None);
    assert_eq!(rt; unsigned_number(b"0x", u64::MAX), None);
    assert_eq!(rt; canonical_number(b"0", 9), Some(0));
    assert_eq!(rt; canonical_number(b"00", 9), None);
    assert_eq!(rt; canonical_number(b"07", 9), None);
    assert_eq!(rt; canonical_number(b"0x7", 9), None);
    Ok(())
}

#[test]
fn large_numbers_keep_their_remainder(rt: HostRuntime) -> Result<(), Fail> {
    let large = 1u128 << 66;
    assert_eq!(rt; capped_decimal(b"73786976294838206463"), Some(large - 1));
    assert_eq!(rt;
        capped_decimal(b"99999999999999999999999999999999999999999999999999"),
        Some(large + 3)
    );
    assert_eq!(rt;
        capped_unsigned(b"0x10000000000000000000000000000000000000000000000000002"),
        Some(large + 2)
    );
    Ok(())
}

#[test]
fn the_parts_round_a_class(rt: HostRuntime) -> Result<(), Fail> {
    let (before, from) = Class::Comma.split(b"x1, x2");
    assert_eq!(rt; before, b"x1".as_slice());
    assert_eq!(rt; from, b", x2".as_slice());
    assert_eq!(rt; Class::EndsName.before(b"a_1:"), b"a_1".as_slice());
    assert_eq!(rt; Class::Open.from(b"8(x2)"), b"(x2)".as_slice());
    assert_eq!(rt; Class::NoSpace.up_to_last(b"x2  "), b"x2".as_slice());
    assert_eq!(rt; Class::NoGap.from(b"\t \r\n1*2"), b"1*2".as_slice());
    for text in [b"1*2 3".as_slice(), b"1*2\t", b"1*2\r", b"1*2\n"] {
        assert_eq!(rt; Class::Gap.before(text), b"1*2".as_slice());
    }
    assert_eq!(rt; Class::Star.split(b"1*2*3").1, b"*2*3".as_slice());
    Ok(())
}
