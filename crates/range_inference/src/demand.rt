ghost use Rattle.std.specs.Prelude.{◌≡◌, ◌∷◌, [], true, IfOk};
ghost use Rattle.range_inference.specs.Demands.{node};
ghost use Rattle.range_inference.specs.Interval.{is_within_bound};
ghost use Rattle.range_inference.specs.Outcome.{IsRequired, Walks};

use crate::bound::Bound;
use crate::fault::RangeFault;
use crate::interval::Interval;
use sqlite_items::Items;

/// Refuses an interval that is too wide.
pub fn require(interval: Interval, line: u32, bound: Bound) -> Result<(), RangeFault>
    ensures { IsRequired bound.value interval line result }
{
    if interval.is_within(bound) {
        Ok(())
    } else {
        Err(RangeFault::TooWide(line))
    }
}

/// Puts the interval of a node behind the others, and gives it on. One that is too wide is refused.
pub fn put(
    interval: Interval,
    line: u32,
    bound: Bound,
    intervals: &mut Items<Interval>,
) -> Result<Interval, RangeFault>
    ensures value { IfOk result (λ i. (i ≡ interval) × (is_within_bound bound.value interval ≡ true)) }
    ensures walk { Walks bound.value (node interval line ∷ []) intervals.old result intervals.new }
{
    require(interval, line, bound)?;
    intervals.push(interval)?;
    Ok(interval)
}
