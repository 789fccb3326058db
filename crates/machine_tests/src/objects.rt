use machine_table::{Instr, Object};
use moduli_sets::SetName;
use object_bytes::{read, write};
use std::test::*;

#[test]
fn written_and_read_again(rt: HostRuntime) -> Result<(), Fail> {
    let code = Vec::from_slice(
        rt.alloc(),
        &[Instr::Ldi { a: 3, value: -42 }, Instr::Out { a: 3 }],
    )?;
    let words = Vec::from_slice(rt.alloc(), &[-97])?;
    let object = Object::check(SetName::Pocket, code, words)
        .ok()
        .ok_or("it breaks no rule")?;
    let bytes = write(rt.alloc(), &object)?;
    assert_eq!(rt; bytes.len(), 112);
    let again = read(rt.alloc(), &bytes).ok().ok_or("they spell it")?;
    assert_eq!(rt; again.set(), SetName::Pocket);
    assert_eq!(rt;
        again.code(),
        [Instr::Ldi { a: 3, value: -42 }, Instr::Out { a: 3 }].as_slice()
    );
    assert_eq!(rt; again.words(), [-97].as_slice());
    Ok(())
}
