ghost use Rattle.name_check.specs.Names.{condition_faults, expr_faults, exprs_faults};
ghost use Rattle.name_check.specs.Reported.{Walks};
ghost use Rattle.name_check.specs.Ties.{all_ties, condition_ties, expr_ties};
ghost use Rattle.std.specs.Prelude.{map};

use crate::fault::NameFault;
use crate::symbols::Symbols;
use crate::uses::{array, variable};
use source_tree::{Condition, Expr};
use sqlite_items::Items;

/// Ties the names in an expression.
pub fn expression(symbols: &Symbols, ties: &mut Items<u32>, e: &Expr) -> Result<(), NameFault>
    ensures { Walks (expr_faults e.now symbols.now) (expr_ties e.now symbols.now) ties.old result ties.new }
{
    match e {
        Expr::Number { .. } => Ok(()),
        Expr::Name(name) => {
            ties.push(variable(symbols, name)?)?;
            Ok(())
        }
        Expr::Element { name, index } => {
            ties.push(array(symbols, name)?)?;
            expression(symbols, ties, index.get())
        }
        Expr::Neg { operand, .. } => expression(symbols, ties, operand.get()),
        Expr::Binary { left, right, .. } => {
            expression(symbols, ties, left.get())?;
            expression(symbols, ties, right.get())
        }
    }
}

/// Ties the names in each of some expressions.
pub fn expressions(
    symbols: &Symbols,
    ties: &mut Items<u32>,
    es: &Items<Expr>,
) -> Result<(), NameFault>
    ensures { Walks (exprs_faults es.now symbols.now) (all_ties (map expr_ties es.now) symbols.now) ties.old result ties.new }
{
    for e in es.as_slice() {
        expression(symbols, ties, e)?;
    }
    Ok(())
}

/// Ties the names in the two sides of a condition.
pub fn condition(
    symbols: &Symbols,
    ties: &mut Items<u32>,
    condition: &Condition,
) -> Result<(), NameFault>
    ensures { Walks (condition_faults condition.now symbols.now) (condition_ties condition.now symbols.now) ties.old result ties.new }
{
    expression(symbols, ties, &condition.left)?;
    expression(symbols, ties, &condition.right)
}
