ghost use Rattle.std.specs.Prelude.{◌≡◌};
ghost use Rattle.range_inference.specs.Interval.{is_bounded};
ghost use Rattle.range_inference.specs.Bound.{IsSetBound, bound_of};

use moduli_sets::{Moduli, SetName};

/// B of a set: its words stand for the integers from -B to B. Two of them add up to an i128.
#[derive(Clone, Copy, Debug)]
pub struct Bound {
    value: i128,
    ghost small: { IsSetBound value },
}

impl Bound {
    pub fn of(set: SetName) -> Bound
        ensures { result.value ≡ bound_of set }
    {
        Bound {
            value: Moduli::of(set).bound(),
        }
    }

    /// Whether x lies from -B to B.
    pub fn has(self, x: i128) -> bool
        ensures { result ≡ is_bounded self.value x }
    {
        -self.value <= x && x <= self.value
    }
}
