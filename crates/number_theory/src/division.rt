ghost use Rattle.std.specs.Prelude.{◌≡◌, ℕ, ℤ, pos, negsuc, suc, neg_ℤ, ◌<◌, ◌+ℤ◌, ◌*ℤ◌};
ghost use Rattle.number_theory.specs.Division.{floor_div, floor_mod};
ghost use Rattle.number_theory.specs.Residue.{residue};

/// An integer is the divisor times its floor quotient, and what that leaves. By a divisor above zero it leaves the
/// residue; by one below zero what it leaves is zero or below, and above the divisor.
pub fn floor_quotient_and_rest()
    ensures whole { (x y : ℤ) → x ≡ (y *ℤ floor_div x y) +ℤ floor_mod x y }
    ensures above { (x : ℤ) (n : ℕ) → floor_mod x (pos (suc n)) ≡ pos (residue x (suc n)) }
    ensures below { (x : ℤ) (n : ℕ) → floor_mod x (negsuc n) ≡ neg_ℤ (pos (residue (neg_ℤ x) (suc n))) }
{}
