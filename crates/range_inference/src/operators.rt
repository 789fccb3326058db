ghost use Rattle.std.specs.Prelude.{◌≡◌, true, IfSome, IfNone, pos, negsuc, ◌-◌, ◌^◌, ◌≤ℤ◌, neg_ℤ};
ghost use Rattle.number_theory.specs.Division.{floor_div};
ghost use Rattle.std.specs.Int.{int_max, int_min};
ghost use Rattle.range_inference.specs.Interval.{from_to, interval_by, is_one_divisor, negated, size_of};
ghost use Rattle.range_inference.specs.Operators.{IsSmall, IsSmallNumber, FitsWord};
ghost use Rattle.source_tree.specs.declared.expression.Operator.TheVariants.{Add, Sub, Mul, Div, Mod};

use crate::interval::Interval;
use source_tree::Operator;

/// The interval of a negation.
pub fn negated(a: Interval) -> Interval
    requires { IsSmall a }
    ensures { result ≡ negated a }
{
    Interval {
        low: -a.high,
        high: -a.low,
    }
}

/// The interval of an operator's results. None where an end of it is no i128.
pub fn combined(operator: Operator, a: Interval, b: Interval) -> Option<Interval>
    requires left { IsSmall a }
    requires right { IsSmall b }
    ensures value { IfSome result (λ i. i ≡ interval_by operator a b) }
    ensures none { IfNone result (¬ (FitsWord (interval_by operator a b))) }
{
    match operator {
        Operator::Add => Some(sums(a, b)),
        Operator::Sub => Some(differences(a, b)),
        Operator::Mul => products(a, b),
        Operator::Div => Some(quotients(a, b)),
        Operator::Mod => Some(remainders(b)),
    }
}

fn sums(a: Interval, b: Interval) -> Interval
    requires left { IsSmall a }
    requires right { IsSmall b }
    ensures { result ≡ interval_by Add a b }
{
    Interval {
        low: a.low + b.low,
        high: a.high + b.high,
    }
}

fn differences(a: Interval, b: Interval) -> Interval
    requires left { IsSmall a }
    requires right { IsSmall b }
    ensures { result ≡ interval_by Sub a b }
{
    Interval {
        low: a.low - b.high,
        high: a.high - b.low,
    }
}

/// From the least to the greatest product of their ends.
fn products(a: Interval, b: Interval) -> Option<Interval>
    ensures value { IfSome result (λ i. i ≡ interval_by Mul a b) }
    ensures none { IfNone result (¬ (FitsWord (interval_by Mul a b))) }
{
    let low_low = a.low.checked_mul(b.low)?;
    let low_high = a.low.checked_mul(b.high)?;
    let high_low = a.high.checked_mul(b.low)?;
    let high_high = a.high.checked_mul(b.high)?;
    Some(joined(between(low_low, low_high), between(high_low, high_high)))
}

/// Quotients by one number rise or fall from end to end; any others are no greater than their left side.
fn quotients(a: Interval, b: Interval) -> Interval
    requires left { IsSmall a }
    requires right { IsSmall b }
    ensures { result ≡ interval_by Div a b }
{
    if is_one_divisor(b) {
        between(floor_quotient(a.low, b.low), floor_quotient(a.high, b.low))
    } else {
        up_to(size(a))
    }
}

/// Whether it is one number other than 0.
fn is_one_divisor(b: Interval) -> bool
    ensures { result ≡ is_one_divisor b }
{
    b.low == b.high && b.low != 0
}

/// The greater of the absolute values of both ends.
fn size(a: Interval) -> i128
    requires { IsSmall a }
    ensures value { result ≡ size_of a }
    ensures small { IsSmallNumber result }
{
    a.low.abs().max(a.high.abs())
}

/// From -size to size.
fn up_to(size: i128) -> Interval
    requires { IsSmallNumber size }
    ensures { result ≡ from_to (neg_ℤ size) size }
{
    Interval {
        low: -size,
        high: size,
    }
}

/// From the lesser of two numbers to the greater.
fn between(x: i128, y: i128) -> Interval
    ensures { result ≡ from_to (int_min x y) (int_max x y) }
{
    Interval {
        low: x.min(y),
        high: x.max(y),
    }
}

/// The least interval around two.
fn joined(a: Interval, b: Interval) -> Interval
    ensures { result ≡ from_to (int_min a.low b.low) (int_max a.high b.high) }
{
    Interval {
        low: a.low.min(b.low),
        high: a.high.max(b.high),
    }
}

/// The floor of x / y.
fn floor_quotient(x: i128, y: i128) -> i128
    requires left { IsSmallNumber x }
    requires right { IsSmallNumber y }
    requires divisor { ¬ (y ≡ pos 0) }
    ensures { result ≡ floor_div x y }
{
    if y < 0 {
        (-x).div_euclid(-y)
    } else {
        x.div_euclid(y)
    }
}

/// Remainders have the sign of the divisor, and are nearer to 0.
fn remainders(b: Interval) -> Interval
    requires { IsSmall b }
    ensures { result ≡ interval_by Mod b b }
{
    around_zero(b.low + 1, b.high - 1)
}

/// The least interval from x to y that has 0 in it.
fn around_zero(x: i128, y: i128) -> Interval
    ensures { result ≡ from_to (int_min (pos 0) x) (int_max (pos 0) y) }
{
    Interval {
        low: 0.min(x),
        high: 0.max(y),
    }
}
