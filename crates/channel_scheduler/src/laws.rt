ghost use Rattle.std.specs.Prelude.{◌≡◌, ℕ, List, [], ◌∷◌, ◌++◌, length, true, false};
ghost use Rattle.channel_alu.specs.declared.operation.MicroOp.{MicroOp};
ghost use Rattle.fault_book.specs.declared.schedule.Turn.{Turn};
ghost use Rattle.fault_book.specs.Book.{Book};
ghost use Rattle.channel_lane.specs.Meaning.{is_show};
ghost use Rattle.channel_lane.specs.Lane.{LaneState};
ghost use Rattle.channel_scheduler.specs.declared.entry.Entry.{Entry};
ghost use Rattle.channel_scheduler.specs.Counts.{HasIssued, HasPerformed};
ghost use Rattle.channel_scheduler.specs.Moments.{IsFirst, JournalIs};

/// The moment up to which a rack under way has come: before the first turn, where the list is empty; after the
/// turn that issued the last operation, where that is no Show; after that by which the last channel performed it,
/// where it is one.
pub fn moments_of_runs()
    ensures empty { (schedule : List Turn) (channels n : ℕ)
        → IsFirst (HasIssued []) schedule channels [] n
        → n ≡ 0 }
    ensures operation { (ops : List MicroOp) (op : MicroOp) (schedule : List Turn) (channels n : ℕ)
        → is_show op ≡ false
        → IsFirst (HasIssued (ops ++ op ∷ [])) schedule channels (ops ++ op ∷ []) n
        → IsFirst (λ t. t.issued ≡ length (ops ++ op ∷ [])) schedule channels (ops ++ op ∷ []) n }
    ensures show { (ops : List MicroOp) (op : MicroOp) (schedule : List Turn) (channels n : ℕ)
        → is_show op ≡ true
        → IsFirst (HasIssued (ops ++ op ∷ [])) schedule channels (ops ++ op ∷ []) n
        → IsFirst (HasPerformed (ops ++ op ∷ [])) schedule channels (ops ++ op ∷ []) n }
{}

/// For every list of operations and every schedule there is a first moment at which every operation is issued and performed.
pub fn turns_end()
    ensures { (ops : List MicroOp) (schedule : List Turn) (channels : ℕ)
        → (n : ℕ) × IsFirst (HasPerformed ops) schedule channels ops n }
{}

/// A run has one journal: its moment is the first of its kind, and so there is one, and with it one list of entries.
pub fn law_of_journals()
    ensures under_way { (plan : List Turn × ℕ) (book : Book) (start : List LaneState) (ops : List MicroOp) (one other : List Entry)
        → JournalIs (HasIssued ops) plan book start ops one
        → JournalIs (HasIssued ops) plan book start ops other
        → one ≡ other }
    ensures ended { (plan : List Turn × ℕ) (book : Book) (start : List LaneState) (ops : List MicroOp) (one other : List Entry)
        → JournalIs (HasPerformed ops) plan book start ops one
        → JournalIs (HasPerformed ops) plan book start ops other
        → one ≡ other }
{}
