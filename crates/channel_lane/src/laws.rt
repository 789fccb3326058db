ghost use Rattle.number_theory.specs.Residue.{residue};
ghost use Rattle.moduli_sets.specs.Set.{ModuliSet, IsModuliSet};
ghost use Rattle.std.specs.Prelude.{◌≡◌, ◌+◌, ◌<◌, ℕ, ℤ, List, [], ◌∷◌, ◌++◌, length};
ghost use Rattle.channel_alu.specs.declared.operation.MicroOp.{MicroOp};
ghost use Rattle.channel_alu.specs.declared.operation.Place.{Place};
ghost use Rattle.fault_book.specs.Book.{Book, fault_at};
ghost use Rattle.channel_lane.specs.Meaning.{CanPerform, IsExact, integers_after, integers_at_start, meaning_of};
ghost use Rattle.channel_lane.specs.Lane.{HoldsResidues, IsLane, LaneState, answer_of, lane_after, lane_after_all, lane_at_start, modulus_of, value_of};

/// A lane stays the lane of its channel through any list of operations: each is counted, the words keep their
/// number, and what could be performed still can. An answer is a residue. A list may be performed in two parts.
pub fn laws_of_lanes()
    ensures set { (book : Book) (ops : List MicroOp) (lane : LaneState)
        → (lane_after_all book ops lane).set ≡ lane.set }
    ensures channel { (book : Book) (ops : List MicroOp) (lane : LaneState)
        → (lane_after_all book ops lane).channel ≡ lane.channel }
    ensures words { (book : Book) (ops : List MicroOp) (lane : LaneState)
        → length (lane_after_all book ops lane).words ≡ length lane.words }
    ensures answers { (book : Book) (ops : List MicroOp) (lane : LaneState)
        → (lane_after_all book ops lane).answers ≡ lane.answers + length ops }
    ensures residue { (book : Book) (op : MicroOp) (lane : LaneState)
        → 0 < modulus_of lane
        → answer_of book op lane < modulus_of lane }
    ensures parts { (book : Book) (ops more : List MicroOp) (lane : LaneState)
        → lane_after_all book (ops ++ more) lane ≡ lane_after_all book more (lane_after_all book ops lane) }
    ensures can { (book : Book) (ops : List MicroOp) (lane : LaneState) (op : MicroOp)
        → CanPerform (length lane.words) (length lane.set.moduli) op
        → CanPerform (length (lane_after_all book ops lane).words)
        (length (lane_after_all book ops lane).set.moduli) op }
    ensures one { (book : Book) (op : MicroOp) (lane : LaneState)
        → lane_after_all book (op ∷ []) lane ≡ lane_after book op lane }
{}

/// What an operation means, it does to the residues. Where a lane holds the residues of integers, and the numbers of an
/// Unscale are those of its integer, the value of an operation is the residue of what it means; and without a fault the
/// lane after it holds the residues of the integers after it. A new lane holds the residues of the integers that it is
/// made with, and it and each lane after an operation is a lane of its set: so the laws hold again after it.
pub fn law_of_meanings()
    ensures new { (set : ModuliSet) (start : List ℤ) (channel : ℕ)
        → IsModuliSet set
        → channel < length set.moduli
        → IsLane (lane_at_start set start channel) }
    ensures start { (set : ModuliSet) (start : List ℤ) (channel : ℕ)
        → IsModuliSet set
        → channel < length set.moduli
        → HoldsResidues (lane_at_start set start channel) (integers_at_start start) }
    ensures lane { (book : Book) (op : MicroOp) (lane : LaneState)
        → IsLane lane
        → IsLane (lane_after book op lane) }
    ensures value { (lane : LaneState) (at : Place → ℤ) (op : MicroOp)
        → IsLane lane
        → CanPerform (length lane.words) (length lane.set.moduli) op
        → HoldsResidues lane at
        → IsExact lane.set.moduli at op
        → value_of lane op ≡ residue (meaning_of lane.set.moduli at op) (modulus_of lane) }
    ensures after { (book : Book) (op : MicroOp) (lane : LaneState) (at : Place → ℤ)
        → IsLane lane
        → CanPerform (length lane.words) (length lane.set.moduli) op
        → HoldsResidues lane at
        → IsExact lane.set.moduli at op
        → fault_at book lane.channel lane.answers ≡ None
        → HoldsResidues (lane_after book op lane) (integers_after lane.set.moduli op at) }
{}
