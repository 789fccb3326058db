ghost use Rattle.std.specs.Prelude.{◌+◌, ◌<◌, ◌≤◌, ◌^◌, All};
ghost use Rattle.moduli_sets.specs.Name.{set_of_name};

use crate::banks::is_vector;
use channel_alu::{MicroOp, Place};
use channel_scheduler::{Lockstep, Rack, Scheduled};
use fault_book::{Faults, Schedule, ScheduleFault};
use lane_bank::{Bank, PocketBank};
use moduli_sets::{Moduli, SetName, Vector};
use std::alloc::{AllocError, Global};
use std::test::Fail;

const TO: Place = Place::Reg(0);

/// The column that any rack shows of register 0 after a Put into it, and what is stored there then.
fn put_and_show<R: Rack>(rack: &mut R, value: i128) -> (Vector, Vector)
    requires { All (λ lane. lane.answers < 10 ^ 17) (R.lanes_of rack.old) }
{
    rack.issue(MicroOp::Put { to: TO, value });
    let column = rack.show(TO);
    rack.settle();
    (column, rack.peek(TO))
}

/// Whether a new bank in lockstep, with these faults, shows and stores these residues after a Put of -42.
fn shows<B: Bank>(
    alloc: Global,
    name: SetName,
    faults: Faults,
    column: &[u32],
    stored: &[u32],
) -> Result<bool, AllocError>
    requires { B.fits (set_of_name name).moduli }
{
    let bank = B::make(alloc, &Moduli::of(name), 0, &[])?;
    let mut rack = Lockstep::make(bank, faults);
    let (shown, held) = put_and_show(&mut rack, -42);
    Ok(is_vector(&shown, column) && is_vector(&held, stored))
}

// What is expected was computed by Python's `%`.

#[test]
fn lockstep(rt: HostRuntime) -> Result<(), Fail> {
    // the Put is wrong in channel 0, and what is stored there; the Show is wrong in channel 2, and the column alone
    let faults = Faults::of_entries(rt.alloc(), &[(0, 0, 0), (2, 1, 21)])?;
    let is_well = shows::<PocketBank>(
        rt.alloc(),
        SetName::Pocket,
        faults,
        &[0, 3, 5, 9, 15],
        &[0, 3, 6, 9, 15],
    )?;
    assert!(rt; is_well);
    Ok(())
}

/// Issues a Put of 1 after so many operations.
fn put_one<R: Rack>(rack: &mut R, before: u32)
    requires { All (λ lane. lane.answers ≤ before) (R.lanes_of rack.old) }
    ensures { All (λ lane. lane.answers ≤ before + 1) (R.lanes_of rack.new) }
{
    rack.issue(MicroOp::Put { to: TO, value: 1 });
}

/// Shows register 0 after so many operations.
fn show_after<R: Rack>(rack: &mut R, before: u32) -> Vector
    requires { All (λ lane. lane.answers ≤ before) (R.lanes_of rack.old) }
{
    rack.show(TO)
}

/// Whether the lanes of a bank have answered so often.
fn have_answered<B: Bank>(bank: &B, counts: &[u64]) -> bool {
    for i in 0..bank.lanes() {
        if counts.get(i).copied() != Some(bank.answered(i)) {
            return false;
        }
    }
    bank.lanes() == counts.len()
}

/// Whether a new bank of five lanes, with the schedule `C 0 C C`, performs three Puts and a Show as those turns and the
/// rounds after them say.
fn runs_by_turns<B: Bank>(alloc: Global, name: SetName) -> Result<bool, ScheduleFault>
    requires { B.fits (set_of_name name).moduli }
{
    let set = Moduli::of(name);
    let schedule = Schedule::read(alloc, &set, b"C 0 C C")?;
    let Ok(bank) = B::make(alloc, &set, 0, &[]) else {
        return Err(ScheduleFault::NoMemory);
    };
    let Ok(mut rack) = Scheduled::make(alloc, bank, Faults::none(), schedule, false) else {
        return Err(ScheduleFault::NoMemory);
    };
    put_one(&mut rack, 0);
    let first = have_answered(rack.bank(), &[0, 0, 0, 0, 0]);
    put_one(&mut rack, 1);
    let second = have_answered(rack.bank(), &[1, 0, 0, 0, 0]);
    put_one(&mut rack, 2);
    let third = have_answered(rack.bank(), &[1, 0, 0, 0, 0]);
    let column = show_after(&mut rack, 3);
    let last = have_answered(rack.bank(), &[4, 4, 4, 4, 4]);
    Ok(first && second && third && last && is_vector(&column, &[1, 1, 1, 1, 1]))
}

#[test]
fn by_turns(rt: HostRuntime) {
    // the second C finds channel 0 alone with nothing left to do, and the Show waits for all
    let is_well = runs_by_turns::<PocketBank>(rt.alloc(), SetName::Pocket);
    assert!(rt; is_well.is_ok_and(|is_well| is_well));
}
