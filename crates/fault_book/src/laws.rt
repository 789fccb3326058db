ghost use Rattle.std.specs.Prelude.{◌≡◌, ◌<◌, ◌≤◌, ℕ, None, false, List, length, slice_index};
ghost use Rattle.number_theory.specs.Distance.{distance};
ghost use Rattle.fault_book.specs.Book.{Book, fault_at, faulty_channels, is_faulty};
ghost use Rattle.fault_book.specs.ScheduleText.{AreTurns, IsFirstOther};
ghost use Rattle.fault_book.specs.declared.schedule.Turn.{Turn};

/// A channel that the book doesn't name has no fault, and one without a fault isn't named. So columns that agree in each
/// channel that isn't named are at a distance of no more than the number of named channels.
pub fn laws_of_faults()
    ensures unnamed { (book : Book) (channel number : ℕ)
        → is_faulty book channel ≡ false
        → fault_at book channel number ≡ None }
    ensures named { (book : Book) (channel : ℕ)
        → ((number : ℕ) → fault_at book channel number ≡ None)
        → is_faulty book channel ≡ false }
    ensures columns { (book : Book) (xs ys : List ℕ)
        → length xs ≤ 12
        → ((channel : ℕ)
        → channel < length xs
        → is_faulty book channel ≡ false
        → slice_index xs channel ≡ slice_index ys channel)
        → distance xs ys ≤ faulty_channels book }
{}

/// A text is a schedule in one way at the most: its turns, or the number of the first word that is no turn, and never both.
pub fn schedules_have_one_reading()
    ensures turns { (channels : ℕ) (text : List ℕ) (xs ys : List Turn)
        → AreTurns channels text xs
        → AreTurns channels text ys
        → xs ≡ ys }
    ensures number { (channels : ℕ) (text : List ℕ) (m n : ℕ)
        → IsFirstOther channels text m
        → IsFirstOther channels text n
        → m ≡ n }
    ensures apart { (channels : ℕ) (text : List ℕ) (turns : List Turn) (n : ℕ)
        → AreTurns channels text turns
        → IsFirstOther channels text n
        → ⊥ }
{}
