//! The top call over files and a sink in memory.
use outside::{MemoryShelf, MemorySink};
use rnm_engine::{Status, rnm};
use std::alloc::{AllocError, Global};
use std::test::Fail;

/// The source of the first run.
const FIRST: &str = "var x: 0..9;\nx := 4;\nprint x * x - 20;\n";

/// Two variables, each printed.
const TWO: &str = "var a: 0..40;\nvar b: 0..40;\na := 5;\nb := 7;\nprint a;\nprint b;\n";

/// The words that run `a.src`.
const RUN: [&str; 4] = ["run", "a.src", "-", "--set=pocket"];

/// What fails outside: the numbers of fetches, and of puts with the bytes that each takes.
#[derive(Drop)]
struct Failing<'a> {
    fetches: &'a [usize],
    puts: &'a [(usize, usize)],
}

const NONE: Failing = Failing {
    fetches: &[],
    puts: &[],
};

/// The status of a job over the one file `a.src`, and what was written.
fn done(
    alloc: Global,
    given: &[&str],
    source: &[u8],
    failing: &Failing,
) -> Result<(Status, Vec<u8>), AllocError> {
    let mut words = Vec::new(alloc);
    for word in given {
        words.push(String::from_str(alloc, word)?)?;
    }
    let mut files = Vec::new(alloc);
    files.push((
        String::from_str(alloc, "a.src")?,
        Vec::from_slice(alloc, source)?,
    ))?;
    let mut shelf = MemoryShelf::make(files, Vec::from_slice(alloc, failing.fetches)?);
    let mut sink = MemorySink::make(alloc, 1000, Vec::from_slice(alloc, failing.puts)?)?;
    let status = rnm(alloc, words.as_slice(), &mut shelf, &mut sink);
    Ok((status, Vec::from_slice(alloc, sink.bytes())?))
}

#[test]
fn sources_run_or_are_refused(rt: HostRuntime) -> Result<(), Fail> {
    let end = "end\ncorrected 0 0 0 0 0\n";
    for (source, printed) in [
        (FIRST, "-4\n"),
        (TWO, "5\n7\n"),
        ("", ""),
        ("print 4 * 4 - 20;", "-4\n"),
        ("print 1 + 2 * 3;", "7\n"),
        ("print 97; print 0 - 97;", "97\n-97\n"),
        ("var a: 3..9; var b: -9..-3; print a; print b;", "3\n-3\n"),
        ("var x: -97..97; print 0;", "0\n"),
    ] {
        let (status, written) = done(rt.alloc(), &RUN, source.as_bytes(), &NONE)?;
        assert_eq!(rt; status, Status::Ok, "{source}");
        let wanted = format!(in rt.alloc(); "{printed}{end}")?;
        assert_eq!(rt; written.as_slice(), wanted.as_bytes(), "{source}");
    }
    for source in [
        // tokens that spell none
        "?",
        "print 1",
        "print 1 + ;",
        "print ;",
        "print 1 div 2;",
        "x := 4",
        "x = 4;",
        "var x: 0 9;",
        "var x: - - 1..2;",
        "print 1; var x: 0..9;",
        // names and ranges
        "print z;",
        "y := 1;",
        "var x: 0..9; var x: 0..9;",
        "var x: 1..0;",
        "var x: -98..0;",
        "var x: 0..98;",
        // nodes that leave the range, of the set or of a variable
        "print 98;",
        "print 0 - 98;",
        "print 50 + 48;",
        "print 14 * 7;",
        "print 14 * 7 - 90;",
        "print 170141183460469231731687303715884105727;",
        "var x: -97..97; print x + x;",
        "var x: 0..9; x := 10;",
    ] {
        let (status, written) = done(rt.alloc(), &RUN, source.as_bytes(), &NONE)?;
        assert_eq!(rt; status, Status::SourceRefused, "{source}");
        assert_eq!(rt;
            written.as_slice(),
            b"refused source unbuilt 0\n".as_slice()
        );
    }
    Ok(())
}

/// Whether the words are answered as a usage fault.
fn is_usage(alloc: Global, words: &[&str]) -> Result<bool, AllocError> {
    let (status, written) = done(alloc, words, b"", &NONE)?;
    Ok(status == Status::Usage && written.as_slice() == b"usage\n".as_slice())
}

#[test]
fn words_are_refused(rt: HostRuntime) -> Result<(), Fail> {
    assert!(rt; is_usage(rt.alloc(), &[])?);
    assert!(rt; is_usage(rt.alloc(), &["run", "a.src", "-"])?);
    assert!(rt; is_usage(rt.alloc(), &["run", "-", "-", "--set=pocket"])?);
    assert!(rt; is_usage(rt.alloc(), &["run", "", "-", "--set=pocket"])?);
    assert!(rt; is_usage(rt.alloc(), &["run", "--a", "-", "--set=pocket"])?);
    Ok(())
}

#[test]
fn sets_and_residues(rt: HostRuntime) -> Result<(), Fail> {
    for (words, printed) in [
        (["encode", "pocket", "42"].as_slice(), "3 12 10 8 4\n"),
        (&["encode", "pocket", "-97"], "7 8 15 5 17\n"),
        (&["encode", "desk", "300"], "61 59 53 49 47 45 44 43\n"),
        (
            &["set", "pocket"],
            "moduli 13 15 16 17 19\ninformation 2\nrange -97..97\n",
        ),
    ] {
        let (status, written) = done(rt.alloc(), words, b"", &NONE)?;
        assert_eq!(rt; status, Status::Ok);
        assert_eq!(rt; written.as_slice(), printed.as_bytes());
    }
    assert!(rt; is_usage(rt.alloc(), &["encode", "pocket", "98"])?);
    assert!(rt; is_usage(rt.alloc(), &["encode", "desk", "451727098180"])?);
    Ok(())
}

#[test]
fn vectors_are_decoded(rt: HostRuntime) -> Result<(), Fail> {
    for (residues, printed, ended) in [
        (["3", "12", "10", "8", "4"], "clean 42\n", Status::Ok),
        (["3", "12", "10", "8", "9"], "corrected 42 4\n", Status::Ok),
        (["4", "13", "10", "8", "4"], "damaged\n", Status::Damage),
        (["7", "8", "2", "13", "3"], "damaged\n", Status::Damage),
    ] {
        let [a, b, c, d, e] = residues;
        let words = ["decode", "pocket", a, b, c, d, e];
        let (status, written) = done(rt.alloc(), &words, b"", &NONE)?;
        assert_eq!(rt; status, ended);
        assert_eq!(rt; written.as_slice(), printed.as_bytes());
    }
    assert!(rt; is_usage(rt.alloc(), &["decode", "pocket", "3", "12", "10", "8"])?);
    Ok(())
}

#[test]
fn sources_mean(rt: HostRuntime) -> Result<(), Fail> {
    for (source, printed, ended) in [
        (FIRST, "-4\nend\n", Status::Ok),
        (TWO, "5\n7\nend\n", Status::Ok),
        (
            "var x: 0..9;\nx := 9;\nx := x + 1;\n",
            "trap range 3\n",
            Status::Trap,
        ),
    ] {
        let words = ["mean", "a.src", "-"];
        let (status, written) = done(rt.alloc(), &words, source.as_bytes(), &NONE)?;
        assert_eq!(rt; status, ended, "{source}");
        assert_eq!(rt; written.as_slice(), printed.as_bytes(), "{source}");
    }
    Ok(())
}

#[test]
fn meanings_are_refused(rt: HostRuntime) -> Result<(), Fail> {
    for (source, refusal) in [
        ("print 1;\n\n.\n", "byte 3"),
        (
            "print 170141183460469231731687303715884105728;",
            "long-number 1",
        ),
        ("var x 0..9;", "syntax 1"),
        ("print 1\n", "syntax 2"),
        ("print 1;\nprint 2 3;\n", "syntax 2"),
        ("print 1;\nprint z;\n", "unknown-name 2"),
        ("var y: 0..1;\nvar x: 1..0;\n", "bad-range 2"),
        ("print 451727098179\n + 1;\n", "too-wide 2"),
    ] {
        let words = ["mean", "a.src", "-"];
        let (status, written) = done(rt.alloc(), &words, source.as_bytes(), &NONE)?;
        assert_eq!(rt; status, Status::SourceRefused, "{source}");
        let wanted = format!(in rt.alloc(); "refused source {refusal}\n")?;
        assert_eq!(rt; written.as_slice(), wanted.as_bytes(), "{source}");
    }
    let (status, written) = done(rt.alloc(), &["mean", "a.src", "b.txt"], b"?", &NONE)?;
    assert_eq!(rt; status, Status::Unread);
    assert_eq!(rt; written.as_slice(), b"unread b.txt\n".as_slice());
    let second = Failing {
        fetches: &[1],
        puts: &[],
    };
    let (status, written) = done(rt.alloc(), &["mean", "a.src", "a.src"], b"?", &second)?;
    assert_eq!(rt; status, Status::Unread);
    assert_eq!(rt; written.as_slice(), b"unread a.src\n".as_slice());
    Ok(())
}

/// An object of `pocket`: `LDI 0 42` and `OUT 0`.
fn object() -> [u8; 96] {
    let mut bytes = [0; 96];
    bytes[0] = b'R';
    bytes[1] = b'N';
    bytes[2] = b'M';
    bytes[3] = b'O';
    bytes[4] = 1;
    bytes[5] = 1;
    bytes[11] = 2;
    bytes[16] = 1;
    bytes[39] = 42;
    bytes[56] = 20;
    bytes
}

#[test]
fn objects_run_or_are_refused(rt: HostRuntime) -> Result<(), Fail> {
    let bytes = object();
    for (words, ended, printed) in [
        (
            ["exec", "a.src", "-"].as_slice(),
            Status::Ok,
            "42\nend\ncorrected 0 0 0 0 0\n",
        ),
        (
            &["exec", "a.src", "-", "--steps=2"],
            Status::Spent,
            "42\nspent\ncorrected 0 0 0 0 0\n",
        ),
        (
            &["exec", "a.src", "a.src"],
            Status::InputRefused,
            "refused input 0\n",
        ),
        (
            &["exec", "a.src", "-", "--faults=a.src"],
            Status::PlanRefused,
            "refused faults 1\n",
        ),
        (
            &["exec", "a.src", "-", "--schedule=a.src"],
            Status::PlanRefused,
            "refused schedule 1\n",
        ),
        (
            &["exec", "a.src", "-", "--journal"],
            Status::Ok,
            "42\nend\ncorrected 0 0 0 0 0\nj 0 0 3\nj 1 0 12\nj 2 0 10\nj 3 0 8\nj 4 0 4\nj 0 1 3\nj 1 1 12\nj 2 1 10\nj 3 1 8\nj 4 1 4\n",
        ),
    ] {
        let (status, written) = done(rt.alloc(), words, &bytes, &NONE)?;
        assert_eq!(rt; status, ended);
        assert_eq!(rt; written.as_slice(), printed.as_bytes());
    }
    let words = ["exec", "a.src", "-"];
    let (status, written) = done(rt.alloc(), &words, b"RNMO", &NONE)?;
    assert_eq!(rt; status, Status::ObjectRefused);
    assert_eq!(rt; written.as_slice(), b"refused object short 4\n".as_slice());
    let second = Failing {
        fetches: &[],
        puts: &[(1, 2)],
    };
    let (status, written) = done(rt.alloc(), &words, &bytes, &second)?;
    assert_eq!(rt; status, Status::Unwritten);
    assert_eq!(rt; written.as_slice(), b"42\nen".as_slice());
    Ok(())
}

#[test]
fn objects_are_listed_and_assembled(rt: HostRuntime) -> Result<(), Fail> {
    let bytes = object();
    let text = "set pocket\nLDI r0 42\nOUT r0\n";
    let (status, written) = done(rt.alloc(), &["list", "a.src"], &bytes, &NONE)?;
    assert_eq!(rt; status, Status::Ok);
    assert_eq!(rt; written.as_slice(), text.as_bytes());
    let (status, written) = done(rt.alloc(), &["asm", "a.src"], text.as_bytes(), &NONE)?;
    assert_eq!(rt; status, Status::Ok);
    assert_eq!(rt; written.as_slice(), bytes.as_slice());

    let (status, written) = done(rt.alloc(), &["list", "a.src"], b"RNMO", &NONE)?;
    assert_eq!(rt; status, Status::ObjectRefused);
    assert_eq!(rt; written.as_slice(), b"refused object short 4\n".as_slice());
    for (text, refusal) in [
        ("", "line 1"),
        ("set pocket\na: a: HALT\n", "line 2"),
        ("set pocket\na: HALT\na: HALT\n", "twice-named 3"),
        ("set pocket\nJMP away\n", "unknown-name 2"),
        ("set pocket\nLDI r16 1\n", "unsound register 2"),
    ] {
        let (status, written) = done(rt.alloc(), &["asm", "a.src"], text.as_bytes(), &NONE)?;
        assert_eq!(rt; status, Status::ObjectRefused, "{text}");
        let wanted = format!(in rt.alloc(); "refused assembly {refusal}\n")?;
        assert_eq!(rt; written.as_slice(), wanted.as_bytes(), "{text}");
    }
    Ok(())
}

#[test]
fn files_are_refused(rt: HostRuntime) -> Result<(), Fail> {
    let missing = ["run", "b.src", "-", "--set=pocket"];
    let (status, written) = done(rt.alloc(), &missing, b"", &NONE)?;
    assert_eq!(rt; status, Status::Unread);
    assert_eq!(rt; written.as_slice(), b"unread b.src\n".as_slice());

    let long = vec![in rt.alloc(); b'\n'; 4_194_305]?;
    let (status, written) = done(rt.alloc(), &RUN, long.as_slice(), &NONE)?;
    assert_eq!(rt; status, Status::TooLong);
    assert_eq!(rt; written.as_slice(), b"too long a.src\n".as_slice());
    Ok(())
}

#[test]
fn faults_outside_end_the_job(rt: HostRuntime) -> Result<(), Fail> {
    for (source, failing, status, written) in [
        (
            FIRST,
            Failing {
                fetches: &[0],
                puts: &[],
            },
            Status::Unread,
            "unread a.src\n",
        ),
        (
            FIRST,
            Failing {
                fetches: &[],
                puts: &[(0, 1)],
            },
            Status::Unwritten,
            "-",
        ),
        (
            TWO,
            Failing {
                fetches: &[],
                puts: &[(2, 2)],
            },
            Status::Unwritten,
            "5\n7\nen",
        ),
        (
            TWO,
            Failing {
                fetches: &[0],
                puts: &[(0, 3)],
            },
            Status::Unwritten,
            "unr",
        ),
    ] {
        let ended = done(rt.alloc(), &RUN, source.as_bytes(), &failing)?;
        assert_eq!(rt; ended.0, status);
        assert_eq!(rt; ended.1.as_slice(), written.as_bytes());
    }
    Ok(())
}

#[test]
fn statuses_have_numbers(rt: HostRuntime) {
    assert_eq!(rt; Status::Ok.number(), 0);
    assert_eq!(rt; Status::Unwritten.number(), 4);
    assert_eq!(rt; Status::TooLong.number(), 13);
}
