ghost use Rattle.std.specs.Prelude.{◌≡◌, ℕ, ℤ, List};
ghost use Rattle.plain_text.specs.Words.{WordAt};
ghost use Rattle.number_text.specs.Input.{AreNumbers, IsFirstOther};

/// Words have one reading at the most: their numbers, or the place of the first that is none, and never both.
pub fn one_reading()
    ensures numbers { (words : List WordAt) (xs ys : List ℤ) → AreNumbers words xs → AreNumbers words ys → xs ≡ ys }
    ensures place { (words : List WordAt) (m n : ℕ) → IsFirstOther words m → IsFirstOther words n → m ≡ n }
    ensures apart { (words : List WordAt) (xs : List ℤ) (n : ℕ) → AreNumbers words xs → IsFirstOther words n → ⊥ }
{}
