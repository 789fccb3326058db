ghost use Rattle.std.specs.Prelude.{◌≡◌, [], All};
ghost use Rattle.lane_bank.specs.Bank.{lanes_after_all};

use crate::Rack;
use channel_alu::{MicroOp, Place};
use fault_book::Faults;
use lane_bank::{Bank, issue_to_all, perform_in_all, stored_in_all};
use moduli_sets::Vector;

/// The rack in which every channel performs each operation as it is issued. It keeps no queue: every backlog is 0 at
/// all times, so that `settle` has nothing to do.
#[derive(Drop)]
pub struct Lockstep<B: Bank> {
    bank: B,
    faults: Faults,
}

impl<B: Bank> Lockstep<B> {
    /// A rack over a bank that was made from channel 0 on and of which no lane has answered yet. Takes no memory.
    pub fn make(bank: B, faults: Faults) -> Lockstep<B>
        requires { All (λ lane. lane.answers ≡ 0) (B.lanes_of bank) }
        ensures book { ⟦<Lockstep<B> as Rack>⟧.book_of result ≡ faults }
        ensures lanes { ⟦<Lockstep<B> as Rack>⟧.lanes_of result ≡ B.lanes_of bank }
        ensures settled { ⟦<Lockstep<B> as Rack>⟧.IsSettled result }
        ensures under_way { ⟦<Lockstep<B> as Rack>⟧.IsUnderWay result (B.lanes_of bank) [] }
    {
        Lockstep { bank, faults }
    }
}

impl<B: Bank> Rack for Lockstep<B> {
    ghost book_of = { λ rack. rack.faults };

    ghost lanes_of = { λ rack. B.lanes_of rack.bank };

    ghost Plan = { Unit {0} };

    ghost plan_of = { λ _. tt };

    ghost IsSettled = { λ _. Unit {0} };

    ghost IsUnderWay = { λ rack start ops. B.lanes_of rack.bank ≡ lanes_after_all rack.faults ops start };

    ghost HasEnded = { λ rack start ops. B.lanes_of rack.bank ≡ lanes_after_all rack.faults ops start };

    fn issue(&mut self, op: MicroOp) {
        issue_to_all(&mut self.bank, &op, &self.faults);
    }

    fn show(&mut self, place: Place) -> Vector {
        perform_in_all(&mut self.bank, &MicroOp::Show { from: place }, &self.faults)
    }

    fn settle(&mut self) {}

    fn peek(&self, place: Place) -> Vector {
        stored_in_all(&self.bank, place)
    }

    ghost lanes_under_way = { λ rack start ops under_way. under_way };

    ghost lanes_at_end = { λ rack start ops ended. ended };
}
