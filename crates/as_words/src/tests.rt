use super::*;
use std::alloc::AllocError;
use std::test::Fail;

// Bytes, whether they are a word, whether they are words, and the numbers that they spell: below 2^64, below ten, signed.
const ROWS: [(&[u8], bool, bool, Option<u64>, Option<u64>, Option<i64>); 27] = [
    (b"", false, false, None, None, None),
    (b"a", true, true, None, None, None),
    (b"select from a", false, true, None, None, None),
    (b"! ~", false, true, None, None, None),
    (b" a", false, false, None, None, None),
    (b"a ", false, false, None, None, None),
    (b"a  b", false, false, None, None, None),
    (b"a\tb", false, false, None, None, None),
    (b"\x7f", false, false, None, None, None),
    (b"0", true, true, Some(0), Some(0), Some(0)),
    (b"9", true, true, Some(9), Some(9), Some(9)),
    (b"10", true, true, Some(10), None, Some(10)),
    (b"-1", true, true, None, None, Some(-1)),
    (b"-0", true, true, None, None, None),
    (b"00", true, true, None, None, None),
    (b"01", true, true, None, None, None),
    (b"-01", true, true, None, None, None),
    (b"+1", true, true, None, None, None),
    (b"--1", true, true, None, None, None),
    (b"1x", true, true, None, None, None),
    (b"1:", true, true, None, None, None),
    (
        b"9223372036854775807",
        true,
        true,
        Some((1 << 63) - 1),
        None,
        Some(i64::MAX),
    ),
    (
        b"9223372036854775808",
        true,
        true,
        Some(1 << 63),
        None,
        None,
    ),
    (
        b"-9223372036854775808",
        true,
        true,
        None,
        None,
        Some(i64::MIN),
    ),
    (b"-9223372036854775809", true, true, None, None, None),
    (
        b"18446744073709551615",
        true,
        true,
        Some(u64::MAX),
        None,
        None,
    ),
    (b"18446744073709551616", true, true, None, None, None),
];

#[test]
fn bytes_are_words_and_numbers(rt: HostRuntime) {
    for (bytes, word, words, natural, digit, integer) in ROWS {
        assert_eq!(rt; is_word(bytes), word);
        assert_eq!(rt; is_words(bytes), words);
        assert_eq!(rt; parse_natural(bytes), natural);
        assert_eq!(rt; parse_below(bytes, 10), digit);
        assert_eq!(rt; parse_integer(bytes), integer);
    }
}

// The word is read as this wide number, or as none.
fn reads_wide(word: &[u8], number: Option<i128>) -> bool {
    parse_wide(word) == number
}

#[test]
fn words_are_wide_numbers(rt: HostRuntime) {
    assert!(rt; reads_wide(b"170141183460469231731687303715884105727", Some(i128::MAX)));
    assert!(rt; reads_wide(b"170141183460469231731687303715884105728", None));
    assert!(rt; reads_wide(b"-170141183460469231731687303715884105728", Some(i128::MIN)));
    assert!(rt; reads_wide(b"-170141183460469231731687303715884105729", None));
    assert!(rt; reads_wide(b"0", Some(0)));
    assert!(rt; reads_wide(b"-0", None));
    assert!(rt; reads_wide(b"01", None));
    assert!(rt; reads_wide(b"+1", None));
    assert!(rt; reads_wide(b"\xff", None));
    assert!(rt; reads_wide(b"", None));
}

#[test]
fn lines_have_words(rt: HostRuntime) -> Result<(), Fail> {
    let mut words = Words::new(b"ab  c");
    assert_eq!(rt; words.count(), 3);
    assert_eq!(rt; words.peek().ok_or("none")?, b"ab".as_slice());
    words.advance();
    assert_eq!(rt; words.next().ok_or("none")?, b"".as_slice());
    assert_eq!(rt; words.next().ok_or("none")?, b"c".as_slice());
    assert!(rt; words.is_empty());
    assert!(rt; words.next().is_none());
    assert_eq!(rt; Words::empty().count(), 0);
    Ok(())
}

#[test]
fn words_are_written(rt: HostRuntime) -> Result<(), Fail> {
    let mut out = Vec::new(rt.alloc());
    append_decimal(u64::MAX, &mut out)?;
    append_spaced_signed(i64::MIN, &mut out)?;
    append_spaced(b"x", &mut out)?;
    append_spaced_decimal(0, &mut out)?;
    append_signed(-7, &mut out)?;
    let start = out.len();
    let appended = append_spaced_numbers(&[1, -2], &mut out);
    whole_or_none(appended, start, &mut out)?;
    assert!(rt; whole_or_none(Err(AllocError), start + 2, &mut out).is_err());
    assert_eq!(rt;
        out.as_slice(),
        b"18446744073709551615 -9223372036854775808 x 0-7 1".as_slice()
    );
    Ok(())
}
