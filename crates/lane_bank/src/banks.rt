ghost use Rattle.std.specs.Prelude.{◌≡◌, ℕ, ◌≤◌, [], ◌∷◌, IfOk, length};
ghost use Rattle.channel_lane.specs.Lane.{LaneState};
ghost use Rattle.lane_bank.specs.Bank.{BeginsWith, lanes_at_start};

use crate::Bank;
use channel_alu::{Channel, FixedChannel, MicroOp, Place};
use channel_lane::Lane;
use fault_book::Faults;
use moduli_sets::Moduli;
use std::alloc::{AllocError, Global};

/// The bank without lanes, at the end of a chain.
#[derive(Debug, Drop)]
pub struct Nil;

/// A lane in front of the lanes of a bank.
#[derive(Drop)]
pub struct Cons<C: Channel, T: Bank> {
    lane: Lane<C>,
    rest: T,
    ghost few: { length (T.lanes_of rest) ≤ 11 },
}

impl Bank for Nil {
    ghost fits = { λ moduli. moduli ≡ [] };

    ghost lanes_of = { λ _. [] };

    fn make(
        _alloc: Global,
        _set: &Moduli,
        _first: usize,
        _start: &[i128],
    ) -> Result<Self, AllocError> {
        Ok(Nil)
    }

    fn lanes(&self) -> usize {
        0
    }

    // There is no lane to ask, so that nothing is asked of the callers.
    fn perform(&mut self, _i: usize, _op: &MicroOp, _faults: &Faults) -> u32
        ensures { result ≡ 0 }
    {
        0
    }

    fn held(&self, _i: usize, _place: Place) -> u32
        ensures { result ≡ 0 }
    {
        0
    }

    fn answered(&self, _i: usize) -> u64
        ensures { result ≡ 0 }
    {
        0
    }
}

impl<C: FixedChannel, T: Bank> Bank for Cons<C, T> {
    ghost fits = { BeginsWith C.MODULUS T.fits };

    ghost lanes_of = { λ bank. bank.lane ∷ T.lanes_of bank.rest };

    fn make(alloc: Global, set: &Moduli, first: usize, start: &[i128]) -> Result<Self, AllocError> {
        set.rules();
        Ok(Cons {
            lane: Lane::make(alloc, C::new(), set, first, start)?,
            rest: T::make(alloc, set, first + 1, start)?,
        })
    }

    fn lanes(&self) -> usize {
        1 + self.rest.lanes()
    }

    fn perform(&mut self, i: usize, op: &MicroOp, faults: &Faults) -> u32 {
        match i {
            0 => self.lane.perform(op, faults),
            _ => self.rest.perform(i - 1, op, faults),
        }
    }

    fn held(&self, i: usize, place: Place) -> u32 {
        match i {
            0 => self.lane.held(place),
            _ => self.rest.held(i - 1, place),
        }
    }

    fn answered(&self, i: usize) -> u64 {
        match i {
            0 => self.lane.answered(),
            _ => self.rest.answered(i - 1),
        }
    }
}
