use super::{InputFault, Line, line_of, read_numbers};

#[test]
fn lines_of_integers(rt: HostRuntime) {
    for (x, text) in [
        (0, "0\n"),
        (-4, "-4\n"),
        (i128::MIN, "-170141183460469231731687303715884105728\n"),
        (i128::MAX, "170141183460469231731687303715884105727\n"),
    ] {
        let line = line_of(x);
        assert_eq!(rt; line.as_slice(), text.as_bytes());
    }
}

#[test]
fn a_line_of_words_and_numbers(rt: HostRuntime) {
    let line = Line::of(b"corrected ")
        .integer(-97)
        .text(b" ")
        .count(u64::MAX)
        .end();
    assert_eq!(rt;
        line.as_slice(),
        b"corrected -97 18446744073709551615\n".as_slice()
    );
}

#[test]
fn numbers_of_inputs(rt: HostRuntime) {
    for (text, numbers) in [
        (b"".as_slice(), [].as_slice()),
        (b" 7\t-97\r\n007 ", [7, -97, 7].as_slice()),
        (
            b"170141183460469231731687303715884105728 -170141183460469231731687303715884105729",
            [i128::MAX, i128::MIN].as_slice(),
        ),
    ] {
        let read = read_numbers(rt.alloc(), text);
        assert!(rt; read.is_ok_and(|read| read.as_slice() == numbers));
    }
    for (text, place) in [
        (b"12x".as_slice(), 0),
        (b"7 \n+5", 3),
        (b"7\x0b8", 0),
        (b"1 - 2", 2),
    ] {
        let read = read_numbers(rt.alloc(), text);
        assert!(rt; read.is_err_and(|fault| fault == InputFault::BadNumber(place)));
    }
}
