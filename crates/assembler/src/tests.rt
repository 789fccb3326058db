use super::{AsmFault, assemble, list};
use machine_table::ObjectFault;

#[test]
fn a_listing_is_assembled_to_its_object(rt: HostRuntime) {
    let text =
        b"# a sum\n\n\tset  pocket # the set\r\ndata -07\nstart: LDI r0 97\r\n ADD r00 r0 r000\nend:\nBLT r0 r1 end\nOUT r0\nCALL start 9\nJMP 0";
    let canonical =
        b"set pocket\ndata -7\nLDI r0 97\nADD r0 r0 r0\nBLT r0 r1 2\nOUT r0\nCALL 0 9\nJMP 0\n";
    for source in [text.as_slice(), canonical.as_slice()] {
        let listed = match assemble(rt.alloc(), source) {
            Ok(object) => list(rt.alloc(), &object),
            Err(_) => Ok(Vec::new(rt.alloc())),
        };
        assert!(rt; listed.is_ok_and(|listed| listed.as_slice() == canonical.as_slice()));
    }
}

#[test]
fn refusals_with_their_lines(rt: HostRuntime) {
    for (text, fault) in [
        (b"".as_slice(), AsmFault::BadLine(1)),
        (b"\n# nothing\n", AsmFault::BadLine(1)),
        (b"\nset vault\n", AsmFault::BadLine(2)),
        (b"\nHALT\n", AsmFault::BadLine(2)),
        (b"set pocket\nset pocket", AsmFault::BadLine(2)),
        (b"set pocket\nJMP away", AsmFault::UnknownName(2)),
        (
            b"set pocket\nLDI r16 1",
            AsmFault::Unsound(ObjectFault::BadRegister(0), 2),
        ),
        (b"set pocket\na: a: HALT", AsmFault::BadLine(2)),
        (b"set pocket\na: HALT\na: HALT", AsmFault::TwiceNamed(3)),
        (b"set pocket\na: HALT\na: NOTHING", AsmFault::BadLine(3)),
        (b"set pocket\nJMP away\nHALT\r", AsmFault::BadLine(3)),
        (b"set pocket\nHALT\r\r\n", AsmFault::BadLine(2)),
        (
            b"set pocket\nHALT\n\ndata 98",
            AsmFault::Unsound(ObjectFault::BadDatum(0), 4),
        ),
        (
            b"set pocket\nLDI r0 170141183460469231731687303715884105728",
            AsmFault::BadLine(2),
        ),
        (
            b"set pocket\nLDI r0 -170141183460469231731687303715884105728",
            AsmFault::Unsound(ObjectFault::BadConstant(0), 2),
        ),
        (b"set pocket\nLDI r256 1", AsmFault::BadLine(2)),
        (b"set pocket\nJMP 4294967296", AsmFault::BadLine(2)),
        (b"set pocket\nhalt", AsmFault::BadLine(2)),
        (b"set pocket\na: data 1", AsmFault::BadLine(2)),
    ] {
        let refused = assemble(rt.alloc(), text);
        assert!(rt; refused.is_err_and(|refused| refused == fault));
    }
}

#[test]
fn an_empty_program_and_a_lone_halt(rt: HostRuntime) {
    for (text, listed) in [
        (b"set hall".as_slice(), b"set hall\n".as_slice()),
        (b"set pocket\nHALT#x", b"set pocket\nHALT\n"),
    ] {
        let canonical = match assemble(rt.alloc(), text) {
            Ok(object) => list(rt.alloc(), &object),
            Err(_) => Ok(Vec::new(rt.alloc())),
        };
        assert!(rt; canonical.is_ok_and(|canonical| canonical.as_slice() == listed));
    }
}
