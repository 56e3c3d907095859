use super::*;

#[test]
fn lines_end_at_their_newline(rt: HostRuntime) {
    let (first, rest) = next_line(b"a\r\r\n\nb\r");
    assert_eq!(rt; first, b"a\r".as_slice());
    assert_eq!(rt; rest, b"\nb\r".as_slice());
    let (first, rest) = next_line(b"\nb\r");
    assert_eq!(rt; first, b"".as_slice());
    assert_eq!(rt; rest, b"b\r".as_slice());
    let (first, rest) = next_line(b"b\r");
    assert_eq!(rt; first, b"b\r".as_slice());
    assert_eq!(rt; rest, b"".as_slice());
}

#[test]
fn words_stand_between_blanks(rt: HostRuntime) {
    assert!(rt; matches!(first_word(b" \t \t"), None));
    let word = first_word(b"\t run  a.txt\t");
    assert_eq!(rt; word, Some((b"run".as_slice(), b"  a.txt\t".as_slice())));
}

#[test]
fn numbers_have_no_sign_and_no_leading_zero(rt: HostRuntime) {
    for (word, value) in [
        (b"0".as_slice(), Some(0)),
        (b"10", Some(10)),
        (b"999999999999999999", Some(999_999_999_999_999_999)),
        (b"1000000000000000000", Some(1_000_000_000_000_000_000)),
        (b"18446744073709551615", Some(u64::MAX as u128)),
        (b"18446744073709551616", Some(TOO_LARGE)),
        (b"18446744073709551617", Some(TOO_LARGE)),
        (b"99999999999999999999", Some(TOO_LARGE)),
        (b"100000000000000000000", Some(TOO_LARGE)),
        (b"", None),
        (b"01", None),
        (b"00", None),
        (b"+1", None),
        (b"-1", None),
        (b"1 ", None),
        (b"1a", None),
        (b"0x1", None),
    ] {
        assert_eq!(rt; number(word), value);
    }
    assert!(rt; is_below(b"99999999999999999998", b"99999999999999999999"));
    assert!(rt; is_below(b"9", b"10"));
    assert!(rt; !is_below(b"10", b"10"));
}
