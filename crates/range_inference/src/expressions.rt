ghost use Rattle.std.specs.Prelude.{◌≡◌, ◌∷◌, [], true, IfOk};
ghost use Rattle.range_inference.specs.Demands.{condition_demands, expr_demands, exprs_demands, node, place_demands};
ghost use Rattle.range_inference.specs.Interval.{interval_by, interval_of, is_within_bound};
ghost use Rattle.range_inference.specs.Operators.{IsSmall};
ghost use Rattle.range_inference.specs.Outcome.{Walks};
ghost use Rattle.range_inference.specs.Table.{range_in};

use crate::bound::Bound;
use crate::demand::put;
use crate::fault::RangeFault;
use crate::interval::Interval;
use crate::operators::{combined, negated};
use crate::ranges::range_of;
use name_table::NameTable;
use source_tree::{Condition, Expr, Operator, Place, Range};
use sqlite_items::Items;

/// The interval of an expression. Those of its nodes are put behind the others.
pub fn expr(
    e: &Expr,
    table: &NameTable<Range>,
    bound: Bound,
    intervals: &mut Items<Interval>,
) -> Result<Interval, RangeFault>
    ensures value { IfOk result (λ i. (i ≡ interval_of e.now (range_in table.now)) × (is_within_bound bound.value i ≡ true)) }
    ensures walk { Walks bound.value (expr_demands e.now (range_in table.now)) intervals.old result intervals.new }
{
    match e {
        Expr::Number { value, line } => put(Interval::one(*value), *line, bound, intervals),
        Expr::Name(name) => {
            let range = range_of(table, name.bytes.as_slice());
            put(Interval::of_range(range), name.line, bound, intervals)
        }
        Expr::Element { name, index } => {
            expr(index.get(), table, bound, intervals)?;
            let range = range_of(table, name.bytes.as_slice());
            put(Interval::of_range(range), name.line, bound, intervals)
        }
        Expr::Neg { operand, line } => {
            let inner = expr(operand.get(), table, bound, intervals)?;
            put(negated(inner), *line, bound, intervals)
        }
        Expr::Binary {
            left,
            operator,
            right,
            line,
        } => {
            let a = expr(left.get(), table, bound, intervals)?;
            let b = expr(right.get(), table, bound, intervals)?;
            put_combined(*operator, a, b, *line, bound, intervals)
        }
    }
}

/// Puts the interval of an operator's results behind the others.
fn put_combined(
    operator: Operator,
    a: Interval,
    b: Interval,
    line: u32,
    bound: Bound,
    intervals: &mut Items<Interval>,
) -> Result<Interval, RangeFault>
    requires left { IsSmall a }
    requires right { IsSmall b }
    ensures value { IfOk result (λ i. (i ≡ interval_by operator a b) × (is_within_bound bound.value i ≡ true)) }
    ensures walk { Walks bound.value (node (interval_by operator a b) line ∷ []) intervals.old result intervals.new }
{
    match combined(operator, a, b) {
        Some(interval) => put(interval, line, bound, intervals),
        None => Err(RangeFault::TooWide(line)),
    }
}

/// Judges an expression.
pub fn judge(
    e: &Expr,
    table: &NameTable<Range>,
    bound: Bound,
    intervals: &mut Items<Interval>,
) -> Result<(), RangeFault>
    ensures { Walks bound.value (expr_demands e.now (range_in table.now)) intervals.old result intervals.new }
{
    expr(e, table, bound, intervals)?;
    Ok(())
}

/// Judges both sides of a condition.
pub fn condition(
    condition: &Condition,
    table: &NameTable<Range>,
    bound: Bound,
    intervals: &mut Items<Interval>,
) -> Result<(), RangeFault>
    ensures { Walks bound.value (condition_demands condition.now (range_in table.now)) intervals.old result intervals.new }
{
    judge(&condition.left, table, bound, intervals)?;
    judge(&condition.right, table, bound, intervals)
}

/// Judges the index of a place, where it has one.
pub fn place(
    place: &Place,
    table: &NameTable<Range>,
    bound: Bound,
    intervals: &mut Items<Interval>,
) -> Result<(), RangeFault>
    ensures { Walks bound.value (place_demands place.now (range_in table.now)) intervals.old result intervals.new }
{
    match place {
        Place::Name(_) => Ok(()),
        Place::Element { index, .. } => judge(index, table, bound, intervals),
    }
}

/// Judges expressions, one after another.
pub fn exprs(
    expressions: &Items<Expr>,
    table: &NameTable<Range>,
    bound: Bound,
    intervals: &mut Items<Interval>,
) -> Result<(), RangeFault>
    ensures { Walks bound.value (exprs_demands expressions.now (range_in table.now)) intervals.old result intervals.new }
{
    for e in expressions.as_slice() {
        judge(e, table, bound, intervals)?;
    }
    Ok(())
}
