ghost use Rattle.std.specs.Prelude.{ℕ, length};
ghost use Rattle.moduli_sets.specs.Name.{set_of_name};
ghost use Rattle.channel_lane.specs.Meaning.{CanPerform};

use channel_alu::{MicroOp, Place, Plain, Plus, Power};
use fault_book::Faults;
use lane_bank::{AnyBank, Bank, Cons, Nil, PocketBank, perform_in_all};
use moduli_sets::{Moduli, SetName, Vector};
use std::alloc::{AllocError, Global};
use std::test::Fail;

const TO: Place = Place::Reg(0);

const FIRST: Place = Place::Word(0);

/// Whether a vector has these residues.
pub(crate) fn is_vector(vector: &Vector, residues: &[u32]) -> bool {
    vector.len() == residues.len()
        && residues.iter().enumerate().all(|(i, residue)| i < vector.len()
            && vector.at(i) == *residue)
}

/// The answer of lane i to an operation that every lane can perform. None where there is no such lane, or its
/// answers cannot be counted any more.
fn answer<B: Bank>(bank: &mut B, i: usize, op: &MicroOp, faults: &Faults) -> Option<u32>
    requires { (words channels : ℕ) → CanPerform words channels op.now }
{
    if i < bank.lanes() && bank.answered(i) < u64::MAX {
        Some(bank.perform(i, op, faults))
    } else {
        None
    }
}

/// Whether the lanes hold these residues in register 0, and have answered so often.
fn are_held<B: Bank>(bank: &B, expected: &[(u32, u64)]) -> bool {
    for i in 0..bank.lanes() {
        if expected.get(i).copied() != Some((bank.held(i, TO), bank.answered(i))) {
            return false;
        }
    }
    true
}

/// Whether a new bank performs an operation with this column, and lanes 1 and 12 a Put of -20 after it, so that
/// this is held and answered.
fn performs<B: Bank>(
    alloc: Global,
    name: SetName,
    start: &[i128],
    op: &MicroOp,
    column: &[u32],
    held: &[(u32, u64)],
) -> Result<bool, AllocError>
    requires moduli { B.fits (set_of_name name).moduli }
    requires can { CanPerform (length start.now) (length (set_of_name name).moduli) op.now }
{
    // the second answer of channel 1 is 44, and no other entry is asked for
    let faults = Faults::of_entries(alloc, &[(1, 1, 44), (3, 1, 3)])?;
    let mut bank = B::make(alloc, &Moduli::of(name), 0, start)?;
    let found = perform_in_all(&mut bank, op, &faults);
    let put = MicroOp::Put { to: TO, value: -20 };
    let is_put = answer(&mut bank, 1, &put, &faults).is_some()
        && answer(&mut bank, 12, &put, &faults).is_none();
    Ok(is_put && is_vector(&found, column) && are_held(&bank, held))
}

// What is expected was computed by Python's `%`, of the integers that the comments give.

#[test]
fn banks(rt: HostRuntime) -> Result<(), Fail> {
    // (-42 - 10) / 13 is -4
    let divide = MicroOp::Unscale {
        to: TO,
        from: FIRST,
        channel: 0,
        take: 10,
        give: 9,
    };
    let is_well = performs::<PocketBank>(
        rt.alloc(),
        SetName::Pocket,
        &[-42],
        &divide,
        &[9, 11, 12, 13, 15],
        &[(9, 1), (14, 2), (12, 1), (13, 1), (15, 1)],
    )?;
    assert!(rt; is_well);
    Ok(())
}

#[test]
fn bank_of_any_set(rt: HostRuntime) -> Result<(), Fail> {
    // -42 is 32,665 modulo 32,707, and (-42 - 32,665) / 32,707 is -1
    let divide = MicroOp::Unscale {
        to: TO,
        from: FIRST,
        channel: 0,
        take: 32665,
        give: 32706,
    };
    let is_well = performs::<AnyBank>(
        rt.alloc(),
        SetName::Hall,
        &[-42],
        &divide,
        &[32706, 32712, 32716, 32718, 32748, 32766, 32767, 32768],
        &[
            (32706, 1),
            (44, 2),
            (32716, 1),
            (32718, 1),
            (32748, 1),
            (32766, 1),
            (32767, 1),
            (32768, 1),
        ],
    )?;
    assert!(rt; is_well);
    Ok(())
}

/// The bank of the channels of `pocket` from number 2 on.
type Tail = Cons<Power<4>, Cons<Plus<4>, Cons<Plain<19>, Nil>>>;

#[test]
fn channels_from_number_two_on(rt: HostRuntime) -> Result<(), Fail> {
    // faults go by the channels of the set, of which 3 is lane 1: its first answer is 40 mod 17
    let faults = Faults::of_entries(rt.alloc(), &[(3, 0, 40), (1, 0, 3)])?;
    let mut bank = Tail::make(rt.alloc(), &Moduli::of(SetName::Pocket), 2, &[])?;
    let put = MicroOp::Put { to: TO, value: -20 };
    for i in 0..3 {
        assert!(rt; answer(&mut bank, i, &put, &faults).is_some());
    }
    assert!(rt; are_held(&bank, &[(12, 1), (6, 1), (18, 1)]));
    Ok(())
}
