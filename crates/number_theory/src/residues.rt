ghost use Rattle.std.specs.Prelude.{◌≡◌, ℕ, ℤ, pos, ◌+◌, ◌*◌, ◌%◌, ◌<◌, neg_ℤ, ◌+ℤ◌, ◌-ℤ◌, ◌*ℤ◌};
ghost use Rattle.number_theory.specs.Coprime.{IsCoprime, IsInverse, inverse_of};
ghost use Rattle.number_theory.specs.Residue.{quotient, residue};

/// A residue is below its modulus, and is its own residue.
pub fn residue_of_residue()
    ensures below { (x : ℤ) (m : ℕ) → 0 < m → residue x m < m }
    ensures same { (x : ℤ) (m : ℕ) → 0 < m → residue (pos (residue x m)) m ≡ residue x m }
{}

/// The residue of a sum is that of the sum of the residues.
pub fn residue_of_sum()
    ensures { (x y : ℤ) (m : ℕ) → 0 < m → residue (x +ℤ y) m ≡ (residue x m + residue y m) % m }
{}

/// The residue of a difference is that of the difference of the residues.
pub fn residue_of_difference()
    ensures { (x y : ℤ) (m : ℕ)
        → 0 < m
        → residue (x -ℤ y) m ≡ residue (pos (residue x m) -ℤ pos (residue y m)) m }
{}

/// The residue of -x is that of minus the residue of x.
pub fn residue_of_negation()
    ensures { (x : ℤ) (m : ℕ) → 0 < m → residue (neg_ℤ x) m ≡ residue (neg_ℤ (pos (residue x m))) m }
{}

/// The residue of a product is that of the product of the residues.
pub fn residue_of_product()
    ensures { (x y : ℤ) (m : ℕ) → 0 < m → residue (x *ℤ y) m ≡ (residue x m * residue y m) % m }
{}

/// An integer is its floor quotient times the modulus, and its residue.
pub fn quotient_and_residue()
    ensures { (x : ℤ) (m : ℕ) → 0 < m → x ≡ (quotient x m *ℤ pos m) +ℤ pos (residue x m) }
{}

/// Scaling (Szabó and Tanaka 1967). An integer less its residue modulo s is divisible by s. So where s has an inverse
/// modulo m, the residue modulo m of the floor quotient by s is that of this difference times the inverse; it has one
/// where s is coprime to m.
pub fn residue_of_quotient()
    ensures inverse { (x : ℤ) (m s y : ℕ)
        → IsInverse s m y
        → residue (quotient x s) m ≡ residue ((pos (residue x m) -ℤ pos (residue x s)) *ℤ pos y) m }
    ensures coprime { (x : ℤ) (m s : ℕ)
        → 0 < m
        → 0 < s
        → IsCoprime m s
        → residue (quotient x s) m ≡ residue ((pos (residue x m) -ℤ pos (residue x s)) *ℤ pos (inverse_of s m)) m }
{}
