ghost use Rattle.std.specs.Prelude.{◌≡◌};
ghost use Rattle.range_inference.specs.Interval.{from_to, interval_of_range, is_within_bound};

use crate::bound::Bound;
use source_tree::Range;

/// The integers from `low` to `high`.
#[derive(Clone, Copy, Debug, PartialEq, Eq)]
pub struct Interval {
    pub low: i128,
    pub high: i128,
}

impl Interval {
    /// One integer.
    pub(crate) fn one(value: i128) -> Interval
        ensures { result ≡ from_to value value }
    {
        Interval {
            low: value,
            high: value,
        }
    }

    /// The integers of a declared range.
    pub(crate) fn of_range(range: Range) -> Interval
        ensures { result ≡ interval_of_range range }
    {
        Interval {
            low: range.low,
            high: range.high,
        }
    }

    /// Whether both ends lie from -bound to bound.
    pub(crate) fn is_within(self, bound: Bound) -> bool
        ensures { result ≡ is_within_bound bound.value self }
    {
        bound.has(self.low) && bound.has(self.high)
    }
}
