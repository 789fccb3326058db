use super::{
    WHITE_SPACE, Word, digits_len, integer_up_to, is_integer, line_feeds, next_word, number_up_to,
};

const GREATEST: u128 = 170141183460469231731687303715884105727;

#[test]
fn digits_at_the_start(rt: HostRuntime) {
    assert_eq!(rt; digits_len(b"0..9"), 1);
    assert_eq!(rt; digits_len(b"007"), 3);
    assert_eq!(rt; digits_len(b"x1"), 0);
    assert_eq!(rt; digits_len(b""), 0);
}

#[test]
fn numbers_up_to_a_limit(rt: HostRuntime) {
    assert_eq!(rt; number_up_to(b"0009", 9), Some(9));
    assert_eq!(rt; number_up_to(b"10", 9), None);
    let greatest = number_up_to(b"00170141183460469231731687303715884105727", GREATEST);
    assert_eq!(rt; greatest, Some(GREATEST));
    let above = number_up_to(b"170141183460469231731687303715884105728", GREATEST);
    assert_eq!(rt; above, None);
    let far_above = number_up_to(b"1000000000000000000000000000000000000000000", u128::MAX);
    assert_eq!(rt; far_above, None);
}

#[test]
fn line_feeds_alone_count(rt: HostRuntime) {
    assert_eq!(rt; line_feeds(b"a\r\nb\n\n"), 3);
    assert_eq!(rt; line_feeds(b"a\r\x0c"), 0);
}

#[test]
fn integers_up_to_a_limit(rt: HostRuntime) {
    for (word, value) in [
        (b"-0".as_slice(), Some(Some(0))),
        (b"-97", Some(Some(-97))),
        (b"97", Some(Some(97))),
        (b"-98", Some(None)),
        (b"-", None),
        (b"", None),
        (b"--5", None),
        (b"12x", None),
        (
            b"123456789012345678901234567890123456789012345678901234567890",
            Some(None),
        ),
        (
            b"-000000000000000000000000000000000000000000000000000000000097",
            Some(Some(-97)),
        ),
    ] {
        let read = is_integer(word).then(|| integer_up_to(word, 97));
        assert_eq!(rt; read, value);
    }
}

#[test]
fn words_of_a_text(rt: HostRuntime) {
    let text = b" \r12\t-3\x0b4\n";
    assert_eq!(rt;
        next_word(text, 0, &WHITE_SPACE),
        Some(Word { start: 2, end: 4 })
    );
    assert_eq!(rt;
        next_word(text, 4, &WHITE_SPACE),
        Some(Word { start: 5, end: 9 })
    );
    assert_eq!(rt; next_word(text, 9, &WHITE_SPACE), None);
    assert_eq!(rt; next_word(text, 0, b" \t"), Some(Word { start: 1, end: 4 }));
}
