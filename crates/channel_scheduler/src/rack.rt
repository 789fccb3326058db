ghost use Rattle.std.specs.Prelude.{◌≡◌, List, [], ◌∷◌, ◌++◌, false};
ghost use Rattle.channel_alu.specs.declared.operation.MicroOp.{MicroOp as Operation};
ghost use Rattle.channel_alu.specs.declared.operation.MicroOp.TheVariants.{Show};
ghost use Rattle.fault_book.specs.Book.{Book};
ghost use Rattle.channel_lane.specs.Meaning.{is_show};
ghost use Rattle.channel_lane.specs.Lane.{LaneState};
ghost use Rattle.lane_bank.specs.Bank.{AllCanPerform, AllHavePlace, column_of, lanes_after, lanes_after_all, stored_in};
ghost use Rattle.channel_scheduler.specs.Rack.{HasRoom};

use channel_alu::{MicroOp, Place};
use moduli_sets::Vector;

/// The channels as control sees them: operations go in, columns of answers come out.
///
/// What a rack means is its book of faults and its lanes as they are once every issued operation is performed. No call
/// changes the book, takes memory or refuses. Besides, a rack tells its place in a run, by a relation between the lanes
/// at the start, the list of operations since, and the rack; it stores neither the start nor the list.
pub trait Rack: Drop {
    /// The book of faults.
    ghost book_of: { Self → Book };

    /// The lanes as they are once every issued operation is performed.
    ghost lanes_of: { Self → List LaneState };

    /// What else a rack was made with, as its schedule. No call changes it.
    ghost Plan: { Type 0 };

    ghost plan_of: { Self → Plan };

    /// Every backlog is 0: each channel has performed each operation that was issued.
    ghost IsSettled: { Self → Type 0 };

    /// The rack has come from lanes at the start by a list of operations, and its run goes on.
    ghost IsUnderWay: { Self → List LaneState → List Operation → Type 0 };

    /// The rack has come from lanes at the start by a list of operations, and its run is over.
    ghost HasEnded: { Self → List LaneState → List Operation → Type 0 };

    /// Issues an operation that shows nothing to every channel.
    fn issue(&mut self, op: MicroOp)
        requires silent { is_show op ≡ false }
        requires can { AllCanPerform (lanes_of self.old) op }
        requires room { HasRoom (lanes_of self.old) }
        ensures book { book_of self.new ≡ book_of self.old }
        ensures plan { plan_of self.new ≡ plan_of self.old }
        ensures lanes { lanes_of self.new ≡ lanes_after (book_of self.old) op (lanes_of self.old) }
        ensures run { (start : List LaneState) (ops : List Operation)
            → IsUnderWay self.old start ops
            → IsUnderWay self.new start (ops ++ op ∷ []) };

    /// Issues a Show of a place, and gives its column: one answer of each channel.
    fn show(&mut self, place: Place) -> Vector
        requires place { AllHavePlace (lanes_of self.old) place }
        requires room { HasRoom (lanes_of self.old) }
        ensures column { result ≡ column_of (book_of self.old) place (lanes_of self.old) }
        ensures book { book_of self.new ≡ book_of self.old }
        ensures plan { plan_of self.new ≡ plan_of self.old }
        ensures lanes { lanes_of self.new ≡ lanes_after (book_of self.old) (Show place) (lanes_of self.old) }
        ensures run { (start : List LaneState) (ops : List Operation)
            → IsUnderWay self.old start ops
            → IsUnderWay self.new start (ops ++ Show place ∷ []) };

    /// Every channel performs what it has left, so that every backlog is 0, and the run is over. After it later calls
    /// tell nothing more of a list of operations.
    fn settle(&mut self)
        ensures book { book_of self.new ≡ book_of self.old }
        ensures plan { plan_of self.new ≡ plan_of self.old }
        ensures lanes { lanes_of self.new ≡ lanes_of self.old }
        ensures settled { IsSettled self.new }
        ensures run { (start : List LaneState) (ops : List Operation)
            → IsUnderWay self.old start ops
            → HasEnded self.new start ops };

    /// The residues that are stored in a place, one of each channel, by no operation and with no fault.
    fn peek(&self, place: Place) -> Vector
        requires settled { IsSettled self.now }
        requires place { AllHavePlace (lanes_of self.now) place }
        ensures { result ≡ stored_in place (lanes_of self.now) };

    /// Under way with a list of operations, the lanes are those of the list, from that start and by the book.
    ghost lanes_under_way: { (rack : Self) (start : List LaneState) (ops : List Operation)
        → IsUnderWay rack start ops
        → lanes_of rack ≡ lanes_after_all (book_of rack) ops start };

    /// And ended with a list, they are too.
    ghost lanes_at_end: { (rack : Self) (start : List LaneState) (ops : List Operation)
        → HasEnded rack start ops
        → lanes_of rack ≡ lanes_after_all (book_of rack) ops start };
}
