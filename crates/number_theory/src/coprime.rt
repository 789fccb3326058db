ghost use Rattle.std.specs.Prelude.{◌≡◌, ℕ, ℤ, pos, neg_ℤ, ◌*◌, ◌<◌, ◌+ℤ◌, ◌≤ℤ◌, ◌<ℤ◌, List, map, All};
ghost use Rattle.std.specs.Int.{◌∣◌};
ghost use Rattle.number_theory.specs.Residue.{residue, AreResidues, IsNumberOf};
ghost use Rattle.number_theory.specs.Coprime.{IsCoprime, IsInverse, ArePairwiseCoprime, product, inverse_of};

/// A number that divides a product and is coprime to one factor divides the other.
pub fn coprime_factor_divides_other()
    ensures { (m a b : ℕ) → IsCoprime m a → m ∣ a * b → m ∣ b }
{}

/// For a modulus above 1 a number has an inverse exactly where it is coprime to the modulus, and has no other:
/// `inverse_of` finds it.
pub fn inverse_is_the_only_one()
    ensures coprime { (a m y : ℕ) → IsInverse a m y → IsCoprime a m }
    ensures only { (a m y z : ℕ) → IsInverse a m y → IsInverse a m z → y ≡ z }
    ensures exists { (a m : ℕ) → 1 < m → IsCoprime a m → IsInverse a m (inverse_of a m) }
    ensures found { (a m y : ℕ) → IsInverse a m y → inverse_of a m ≡ y }
{}

/// Where each of pairwise coprime moduli divides a number, so does their product.
pub fn pairwise_coprime_product_divides()
    ensures { (ms : List ℕ) (n : ℕ) → ArePairwiseCoprime ms → All (λ m. m ∣ n) ms → product ms ∣ n }
{}

/// Two integers with equal residues for pairwise coprime moduli are equal, where they differ by less than
/// the product of the moduli.
pub fn equal_residues_make_equal()
    ensures ordered { (ms : List ℕ) (x y : ℤ)
        → ArePairwiseCoprime ms
        → map (residue x) ms ≡ map (residue y) ms
        → x ≤ℤ y
        → y <ℤ (x +ℤ pos (product ms))
        → x ≡ y }
    ensures within_bound { (ms : List ℕ) (b : ℕ) (x y : ℤ)
        → ArePairwiseCoprime ms
        → map (residue x) ms ≡ map (residue y) ms
        → 2 * b < product ms
        → neg_ℤ (pos b) ≤ℤ x
        → x ≤ℤ pos b
        → neg_ℤ (pos b) ≤ℤ y
        → y ≤ℤ pos b
        → x ≡ y }
{}

/// Residues for pairwise coprime moduli are those of exactly one number below the product (the Chinese remainder
/// theorem).
pub fn one_number_has_the_residues()
    ensures exists { (ms rs : List ℕ) → ArePairwiseCoprime ms → AreResidues ms rs → (n : ℕ) × IsNumberOf ms rs n }
    ensures only { (ms rs : List ℕ) (n k : ℕ) → ArePairwiseCoprime ms → IsNumberOf ms rs n → IsNumberOf ms rs k → n ≡ k }
{}
