ghost use Rattle.std.specs.Prelude.{◌≡◌, ◌-◌, ◌<◌, ◌^◌, All};
ghost use Rattle.lane_bank.specs.Bank.{AllCanPerform, AllHavePlace, answers_of, lanes_after, stored_in};

use crate::Bank;
use channel_alu::{MicroOp, Place};
use fault_book::Faults;
use moduli_sets::Vector;

/// Each lane of a bank performs an operation. The column of their answers is given, one residue for each lane.
pub fn perform_in_all<B: Bank>(bank: &mut B, op: &MicroOp, faults: &Faults) -> Vector
    requires can { AllCanPerform (B.lanes_of bank.old) op.now }
    requires count { All (λ lane. lane.answers < 2 ^ 64 - 1) (B.lanes_of bank.old) }
    ensures column { result ≡ answers_of faults.now op.now (B.lanes_of bank.old) }
    ensures lanes { B.lanes_of bank.new ≡ lanes_after faults.now op.now (B.lanes_of bank.old) }
{
    let mut column = Vector::new();
    for i in 0..bank.lanes() {
        column.push(bank.perform(i, op, faults));
    }
    column
}

/// Each lane of a bank performs an operation whose answers nobody reads, and no column is made of them.
pub fn issue_to_all<B: Bank>(bank: &mut B, op: &MicroOp, faults: &Faults)
    requires can { AllCanPerform (B.lanes_of bank.old) op.now }
    requires count { All (λ lane. lane.answers < 2 ^ 64 - 1) (B.lanes_of bank.old) }
    ensures { B.lanes_of bank.new ≡ lanes_after faults.now op.now (B.lanes_of bank.old) }
{
    for i in 0..bank.lanes() {
        let _answer = bank.perform(i, op, faults);
    }
}

/// The residues that are stored in a place, one of each lane of a bank.
pub fn stored_in_all<B: Bank>(bank: &B, place: Place) -> Vector
    requires { AllHavePlace (B.lanes_of bank.now) place }
    ensures { result ≡ stored_in place (B.lanes_of bank.now) }
{
    let mut column = Vector::new();
    for i in 0..bank.lanes() {
        column.push(bank.held(i, place));
    }
    column
}
