ghost use Rattle.std.specs.Prelude.{ℤ, ◌*ℤ◌, ◌≤ℤ◌};
ghost use Rattle.number_theory.specs.Interval.{least_product, greatest_product};

/// The product of a number from l1 to h1 and one from l2 to h2 lies between the least and the greatest
/// product of their ends.
pub fn product_between()
    ensures low { (l1 h1 l2 h2 x y : ℤ)
        → l1 ≤ℤ x
        → x ≤ℤ h1
        → l2 ≤ℤ y
        → y ≤ℤ h2
        → least_product l1 h1 l2 h2 ≤ℤ (x *ℤ y) }
    ensures high { (l1 h1 l2 h2 x y : ℤ)
        → l1 ≤ℤ x
        → x ≤ℤ h1
        → l2 ≤ℤ y
        → y ≤ℤ h2
        → (x *ℤ y) ≤ℤ greatest_product l1 h1 l2 h2 }
{}
