ghost use Rattle.std.specs.Prelude.{◌≡◌, IfOk};
ghost use Rattle.name_check.specs.Held.{scope_in};
ghost use Rattle.resolved_tree.specs.Resolution.{resolved_condition, resolved_expr, resolved_place};

use crate::names::slot;
use crate::tree::{Target, Test, Value};
use name_check::Symbol;
use name_table::NameTable;
use source_tree::{Condition, Expr, Place};
use sqlite_items::Boxed;
use std::alloc::{AllocError, Global};

/// An expression, resolved.
pub fn value(alloc: Global, e: &Expr, table: &NameTable<Symbol>) -> Result<Value, AllocError>
    ensures { IfOk result (λ v. v ≡ resolved_expr e.now (scope_in table.now)) }
{
    match e {
        Expr::Number { value: n, .. } => Ok(Value::Number { value: *n }),
        Expr::Name(name) => Ok(Value::Integer {
            slot: slot(name, table),
        }),
        Expr::Element { name, index } => {
            let index = value(alloc, index.get(), table)?;
            Ok(Value::Element {
                slot: slot(name, table),
                index: Boxed::new(alloc, index)?,
                line: name.line,
            })
        }
        Expr::Neg { operand, .. } => {
            let operand = value(alloc, operand.get(), table)?;
            Ok(Value::Neg {
                operand: Boxed::new(alloc, operand)?,
            })
        }
        Expr::Binary {
            left,
            operator,
            right,
            line,
        } => {
            let left = value(alloc, left.get(), table)?;
            let right = value(alloc, right.get(), table)?;
            Ok(Value::Binary {
                left: Boxed::new(alloc, left)?,
                operator: *operator,
                right: Boxed::new(alloc, right)?,
                line: *line,
            })
        }
    }
}

/// A condition, resolved.
pub fn test(
    alloc: Global,
    condition: &Condition,
    table: &NameTable<Symbol>,
) -> Result<Test, AllocError>
    ensures { IfOk result (λ t. t ≡ resolved_condition condition.now (scope_in table.now)) }
{
    let left = value(alloc, &condition.left, table)?;
    let right = value(alloc, &condition.right, table)?;
    Ok(Test {
        left,
        comparison: condition.comparison,
        right,
    })
}

/// A place, resolved.
pub fn target(alloc: Global, place: &Place, table: &NameTable<Symbol>) -> Result<Target, AllocError>
    ensures { IfOk result (λ t. t ≡ resolved_place place.now (scope_in table.now)) }
{
    match place {
        Place::Name(name) => Ok(Target::Integer {
            slot: slot(name, table),
        }),
        Place::Element { name, index } => {
            let index = value(alloc, index, table)?;
            Ok(Target::Element {
                slot: slot(name, table),
                index,
                line: name.line,
            })
        }
    }
}
