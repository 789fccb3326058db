ghost use Rattle.range_inference.specs.Demands.{statement_demands, statements_demands};
ghost use Rattle.range_inference.specs.Outcome.{Walks};
ghost use Rattle.range_inference.specs.Table.{range_in};

use crate::bound::Bound;
use crate::demand::require;
use crate::expressions::{condition, exprs, judge, place};
use crate::fault::RangeFault;
use crate::interval::Interval;
use name_table::NameTable;
use source_tree::{Range, Statement};
use sqlite_items::Items;

/// Judges statements, one after another.
#[cycle(statement)]
pub fn statements(
    list: &Items<Statement>,
    table: &NameTable<Range>,
    bound: Bound,
    intervals: &mut Items<Interval>,
) -> Result<(), RangeFault>
    ensures { Walks bound.value (statements_demands list.now (range_in table.now)) intervals.old result intervals.new }
{
    for s in list.as_slice() {
        statement(s, table, bound, intervals)?;
    }
    Ok(())
}

/// Judges a statement in text order: of an assignment the index comes before the value.
#[cycle(statement)]
fn statement(
    s: &Statement,
    table: &NameTable<Range>,
    bound: Bound,
    intervals: &mut Items<Interval>,
) -> Result<(), RangeFault>
    ensures { Walks bound.value (statement_demands s.now (range_in table.now)) intervals.old result intervals.new }
{
    match s {
        Statement::Assign {
            place: target,
            value,
            ..
        } => {
            place(target, table, bound, intervals)?;
            judge(value, table, bound, intervals)
        }
        Statement::Print { value, .. } => judge(value, table, bound, intervals),
        Statement::Read { place: target, .. } => place(target, table, bound, intervals),
        Statement::If {
            condition: test,
            first,
            second,
            ..
        } => {
            condition(test, table, bound, intervals)?;
            statements(first, table, bound, intervals)?;
            statements(second, table, bound, intervals)
        }
        Statement::For {
            first,
            last,
            body,
            ..
        } => {
            judge(first, table, bound, intervals)?;
            judge(last, table, bound, intervals)?;
            statements(body, table, bound, intervals)
        }
        Statement::While {
            condition: test,
            limit,
            body,
            line,
        } => {
            condition(test, table, bound, intervals)?;
            require(Interval::one(*limit), *line, bound)?;
            statements(body, table, bound, intervals)
        }
        Statement::Call { arguments, .. } => exprs(arguments, table, bound, intervals),
    }
}
