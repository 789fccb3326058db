ghost use Rattle.std.specs.Prelude.{◌≤◌, All, length};
ghost use Rattle.moduli_sets.specs.Set.{IsModulus};

use crate::Bank;
use channel_alu::{AnyChannel, MicroOp, Place};
use channel_lane::Lane;
use fault_book::Faults;
use moduli_sets::Moduli;
use std::alloc::{AllocError, Global};

/// The bank of a set that is known only at run time. Its lanes stand in a list, so that a lane is found without passing
/// those before it.
#[derive(Drop)]
pub struct AnyBank {
    lanes: Vec<Lane<AnyChannel>>,
    ghost few: { length lanes.items ≤ 12 },
}

impl Bank for AnyBank {
    ghost fits = { All IsModulus };

    ghost lanes_of = { λ bank. bank.lanes.items };

    fn make(alloc: Global, set: &Moduli, first: usize, start: &[i128]) -> Result<Self, AllocError> {
        set.rules();
        let mut lanes = Vec::new(alloc);
        for channel in first..set.count() {
            let arithmetic = AnyChannel::of(set.modulus(channel));
            lanes.push(Lane::make(alloc, arithmetic, set, channel, start)?)?;
        }
        Ok(AnyBank { lanes })
    }

    fn lanes(&self) -> usize {
        self.lanes.len()
    }

    fn perform(&mut self, i: usize, op: &MicroOp, faults: &Faults) -> u32 {
        self.lanes[i].perform(op, faults)
    }

    fn held(&self, i: usize, place: Place) -> u32 {
        self.lanes[i].held(place)
    }

    fn answered(&self, i: usize) -> u64 {
        self.lanes[i].answered()
    }
}
