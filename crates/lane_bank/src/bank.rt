ghost use Rattle.std.specs.Prelude.{◌≡◌, ℕ, ◌-◌, ◌<◌, ◌≤◌, ◌^◌, List, IfOk, drop, length, slice_set};
ghost use Rattle.moduli_sets.specs.Moduli.{set_of};
ghost use Rattle.channel_lane.specs.Meaning.{CanPerform, HasPlace};
ghost use Rattle.channel_lane.specs.Lane.{LaneState, answer_of, held_in, lane_after, modulus_of};
ghost use Rattle.lane_bank.specs.Bank.{lane_at, lanes_at_start};

use channel_alu::{MicroOp, Place};
use fault_book::Faults;
use moduli_sets::Moduli;
use std::alloc::{AllocError, Global};

/// The lanes of consecutive channels of a set. Lane number i is channel `first + i` of the set that the bank was
/// made with; faults and the channel of an Unscale go by the set's numbers.
pub trait Bank: Sized + Drop {
    /// The moduli for which a bank can be made, one for each lane.
    ghost fits: { List ℕ → Type 0 };

    /// The lanes, in order.
    ghost lanes_of: { Self → List LaneState };

    /// A bank for the channels of the set from number `first` on. Registers and scratch places hold 0, the data
    /// words the residues of `start`.
    fn make(alloc: Global, set: &Moduli, first: usize, start: &[i128]) -> Result<Self, AllocError>
        requires { fits (drop first (set_of set.now).moduli) }
        ensures { IfOk result (λ bank. lanes_of bank ≡ lanes_at_start (set_of set.now) first start.now) };

    /// The number of lanes, at most 12.
    fn lanes(&self) -> usize
        ensures count { result ≡ length (lanes_of self.now) }
        ensures few { result ≤ 12 };

    /// Lane i performs an operation and gives its answer; no other lane changes. Both the answer and what lane i
    /// becomes are functions of lane i, the operation and the faults alone.
    fn perform(&mut self, i: usize, op: &MicroOp, faults: &Faults) -> u32
        requires lane { i < length (lanes_of self.old) }
        requires can { CanPerform (length (lane_at (lanes_of self.old) i).words)
            (length (lane_at (lanes_of self.old) i).set.moduli) op.now }
        requires count { (lane_at (lanes_of self.old) i).answers < 2 ^ 64 - 1 }
        ensures answer { result ≡ answer_of faults.now op.now (lane_at (lanes_of self.old) i) }
        ensures lanes { lanes_of self.new
            ≡ slice_set (lanes_of self.old) i (lane_after faults.now op.now (lane_at (lanes_of self.old) i)) };

    /// The residue in a place of lane i.
    fn held(&self, i: usize, place: Place) -> u32
        requires lane { i < length (lanes_of self.now) }
        requires place { HasPlace (length (lane_at (lanes_of self.now) i).words) place }
        ensures value { result ≡ held_in (lane_at (lanes_of self.now) i) place }
        ensures below { result < modulus_of (lane_at (lanes_of self.now) i) };

    /// How many answers lane i has given.
    fn answered(&self, i: usize) -> u64
        requires { i < length (lanes_of self.now) }
        ensures { result ≡ (lane_at (lanes_of self.now) i).answers };
}
