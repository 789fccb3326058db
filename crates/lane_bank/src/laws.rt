ghost use Rattle.std.specs.Prelude.{◌≡◌, ◌+◌, ◌<◌, ℕ, ℤ, List, [], ◌∷◌, ◌++◌, All, length};
ghost use Rattle.number_theory.specs.Residue.{AreResidues};
ghost use Rattle.moduli_sets.specs.Set.{ModuliSet, IsModuliSet};
ghost use Rattle.channel_alu.specs.declared.operation.MicroOp.{MicroOp};
ghost use Rattle.fault_book.specs.Book.{Book};
ghost use Rattle.channel_lane.specs.Meaning.{CanPerform};
ghost use Rattle.channel_lane.specs.Lane.{LaneState, lane_at_start};
ghost use Rattle.lane_bank.specs.Bank.{AllCanPerform, answers_of, lane_at, lanes_after, lanes_after_all, lanes_at_start};

/// Lane i of a new bank is the new lane of channel `first + i`, and no lane has answered.
pub fn lanes_of_new_banks()
    ensures lane { (set : ModuliSet) (first i : ℕ) (numbers : List ℤ)
        → first + i < length set.moduli
        → lane_at (lanes_at_start set first numbers) i ≡ lane_at_start set numbers (first + i) }
    ensures fresh { (set : ModuliSet) (first : ℕ) (numbers : List ℤ)
        → All (λ lane. lane.answers ≡ 0) (lanes_at_start set first numbers) }
{}

/// Lanes side by side go through lists of operations each by itself: no operation leaves them as they are, a list may
/// be performed in two parts, and a list of one operation is that operation.
pub fn lanes_in_parts()
    ensures none { (book : Book) (lanes : List LaneState) → lanes_after_all book [] lanes ≡ lanes }
    ensures one { (book : Book) (op : MicroOp) (lanes : List LaneState)
        → lanes_after_all book (op ∷ []) lanes ≡ lanes_after book op lanes }
    ensures parts { (book : Book) (ops more : List MicroOp) (lanes : List LaneState)
        → lanes_after_all book (ops ++ more) lanes ≡ lanes_after_all book more (lanes_after_all book ops lanes) }
{}

/// Lanes that began at a start, after any operations. Where an operation can be performed with as many data words as
/// there are at the start and as many channels as the set has, each lane can perform it. The column of its answers is
/// one residue for each modulus, as a decoder asks. Each lane has answered each operation once.
pub fn lanes_of_runs()
    ensures can { (book : Book) (set : ModuliSet) (first : ℕ) (start : List ℤ) (ops : List MicroOp) (op : MicroOp)
        → CanPerform (length start) (length set.moduli) op
        → AllCanPerform (lanes_after_all book ops (lanes_at_start set first start)) op }
    ensures column { (book : Book) (set : ModuliSet) (start : List ℤ) (ops : List MicroOp) (op : MicroOp)
        → IsModuliSet set
        → AreResidues set.moduli (answers_of book op (lanes_after_all book ops (lanes_at_start set 0 start))) }
    ensures answers { (book : Book) (set : ModuliSet) (first : ℕ) (start : List ℤ) (ops : List MicroOp)
        → All (λ lane. lane.answers ≡ length ops) (lanes_after_all book ops (lanes_at_start set first start)) }
{}
