use fault_book::{BookFault, Faults};
use moduli_sets::{Moduli, SetName};
use std::alloc::Global;
use std::test::Fail;

#[test]
fn faults(rt: HostRuntime) -> Result<(), Fail> {
    let none = Faults::none();
    assert!(rt; none.answer(300, u64::MAX).is_none() && none.channels() == 0);
    let faults = Faults::of_entries(rt.alloc(), &[(0, 1, 9), (3, 3, 1), (0, 7, 4294967295)])?;
    for (channel, number, answer) in [
        (0, 1, Some(9)),
        (0, 7, Some(4294967295)),
        (3, 3, Some(1)),
        (3, 1, None),
        (256, 1, None),
    ] {
        assert!(rt; faults.answer(channel, number) == answer);
    }
    assert!(rt; faults.channels() == 2);
    Ok(())
}

/// What a short text writes for a set of five channels.
fn read(alloc: Global, text: &[u8]) -> Result<Faults, BookFault> {
    if text.len() > 100 {
        return Err(BookFault::NoMemory);
    }
    Faults::read(alloc, &Moduli::of(SetName::Pocket), text)
}

#[test]
fn texts(rt: HostRuntime) {
    let text = b"# two of them\r\n0 1 9\n\n \t4\t007 4294967295 \r";
    let is_read = match read(rt.alloc(), text) {
        Ok(faults) => {
            faults.answer(0, 1) == Some(9)
                && faults.answer(4, 7) == Some(4294967295)
                && faults.channels() == 2
        }
        Err(_) => false,
    };
    assert!(rt; is_read);
    for (text, fault) in [
        (b"0 1 2\n0 1 2\r\nx".as_slice(), BookFault::Twice(2)),
        (b"\n5 0 0\n5 0 0", BookFault::UnknownChannel(2)),
        (b" # x", BookFault::BadLine(1)),
        (b"0 1 2\r\r", BookFault::BadLine(1)),
        (b"#\n0 1 4294967296", BookFault::BadLine(2)),
    ] {
        assert!(rt; read(rt.alloc(), text).err() == Some(fault));
    }
}
