use fault_book::{Schedule, ScheduleFault, Turn};
use moduli_sets::{Moduli, SetName};
use std::alloc::Global;

/// What a short text writes for a set.
fn read(alloc: Global, name: SetName, text: &[u8]) -> Result<Schedule, ScheduleFault> {
    if text.len() > 100 {
        return Err(ScheduleFault::NoMemory);
    }
    Schedule::read(alloc, &Moduli::of(name), text)
}

#[test]
fn turns_of_texts(rt: HostRuntime) {
    assert!(rt; Schedule::none().turns().is_empty());
    for (name, text, turns) in [
        (SetName::Pocket, b"".as_slice(), [].as_slice()),
        (SetName::Pocket, b" \t\r\n ", &[]),
        (
            SetName::Pocket,
            b"C C\t4\r\n0004\n4\r0 ",
            &[
                Turn::Control,
                Turn::Control,
                Turn::Lane(4),
                Turn::Lane(4),
                Turn::Lane(4),
                Turn::Lane(0),
            ],
        ),
        (SetName::Desk, b"\n007 C", &[Turn::Lane(7), Turn::Control]),
        (SetName::Hall, b"7", &[Turn::Lane(7)]),
    ] {
        let schedule = read(rt.alloc(), name, text);
        assert!(rt; schedule.is_ok_and(|schedule| schedule.turns() == turns));
    }
}

#[test]
fn other_words(rt: HostRuntime) {
    for (name, text, number) in [
        (SetName::Pocket, b"C 9".as_slice(), 2),
        (SetName::Pocket, b"4 5 x", 2),
        (SetName::Pocket, b"c", 1),
        (SetName::Pocket, b"C 0 CC", 3),
        (SetName::Pocket, b"1\x0b2", 1),
        (SetName::Pocket, b"+1", 1),
        (SetName::Pocket, b"18446744073709551616", 1),
        (
            SetName::Pocket,
            b"0000000000000000000000000000000000000256",
            1,
        ),
        (SetName::Desk, b"7 8", 2),
        (SetName::Hall, b"8", 1),
    ] {
        let schedule = read(rt.alloc(), name, text);
        assert!(rt; schedule.is_err_and(|fault| fault == ScheduleFault::BadTurn(number)));
    }
}
