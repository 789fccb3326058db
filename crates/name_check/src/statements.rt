ghost use Rattle.std.specs.Prelude.{◌≡◌, ◌++◌, OnOk, length, map};
ghost use Rattle.plain_text.specs.Lookup.{lookup};
ghost use Rattle.name_check.specs.Names.{all_faults, as_assigned, as_procedure, expr_faults, exprs_faults, place_faults, statement_faults, with_loop};
ghost use Rattle.name_check.specs.Reported.{Walks};
ghost use Rattle.name_check.specs.Ties.{all_ties, expr_ties, name_ties, place_ties, statement_ties};

use crate::expressions::{condition, expression, expressions};
use crate::fault::NameFault;
use crate::symbols::Symbols;
use crate::uses::{array, assigned, procedure};
use source_tree::{Expr, Name, Place, Statement};
use sqlite_items::Items;

/// Ties the names in each of some statements, inside `for`s over the variables `loops`.
#[cycle(statement)]
pub fn statements(
    symbols: &Symbols,
    loops: &mut Items<u32>,
    ties: &mut Items<u32>,
    statements: &Items<Statement>,
) -> Result<(), NameFault>
    ensures walk { Walks (all_faults (map statement_faults statements.now) symbols.now loops.old) (all_ties (map statement_ties statements.now) symbols.now) ties.old result ties.new }
    ensures loops { OnOk result (loops.new ≡ loops.old) }
{
    for s in statements.as_slice() {
        statement(symbols, loops, ties, s)?;
    }
    Ok(())
}

/// Ties the names in a statement.
#[cycle(statement)]
fn statement(
    symbols: &Symbols,
    loops: &mut Items<u32>,
    ties: &mut Items<u32>,
    s: &Statement,
) -> Result<(), NameFault>
    ensures walk { Walks (statement_faults s.now symbols.now loops.old) (statement_ties s.now symbols.now) ties.old result ties.new }
    ensures loops { OnOk result (loops.new ≡ loops.old) }
{
    match s {
        Statement::Assign {
            place: target,
            value,
            ..
        } => assignment(symbols, loops, ties, target, value),
        Statement::Print { value, .. } => expression(symbols, ties, value),
        Statement::Read { place: target, .. } => place(symbols, loops, ties, target),
        Statement::If {
            condition: test,
            first,
            second,
            ..
        } => {
            condition(symbols, ties, test)?;
            statements(symbols, loops, ties, first)?;
            statements(symbols, loops, ties, second)
        }
        Statement::For {
            name,
            first,
            last,
            body,
            ..
        } => {
            for_head(symbols, loops, ties, name, first, last)?;
            statements(symbols, loops, ties, body)?;
            loops.pop();
            Ok(())
        }
        Statement::While {
            condition: test,
            body,
            ..
        } => {
            condition(symbols, ties, test)?;
            statements(symbols, loops, ties, body)
        }
        Statement::Call {
            name,
            arguments,
            ..
        } => call(symbols, ties, name, arguments),
    }
}

/// Ties the names in a place and in the value that is put there.
fn assignment(
    symbols: &Symbols,
    loops: &Items<u32>,
    ties: &mut Items<u32>,
    target: &Place,
    value: &Expr,
) -> Result<(), NameFault>
    ensures { Walks (place_faults target.now symbols.now loops.now ++ expr_faults value.now symbols.now) (place_ties target.now symbols.now ++ expr_ties value.now symbols.now) ties.old result ties.new }
{
    place(symbols, loops, ties, target)?;
    expression(symbols, ties, value)
}

/// Ties the name of a procedure that is called, and then the names in the arguments.
fn call(
    symbols: &Symbols,
    ties: &mut Items<u32>,
    name: &Name,
    arguments: &Items<Expr>,
) -> Result<(), NameFault>
    ensures { Walks (as_procedure (lookup name.now.bytes symbols.now) (length arguments.now) name.now.line ++ exprs_faults arguments.now symbols.now)
        (name_ties name.now symbols.now ++ all_ties (map expr_ties arguments.now) symbols.now) ties.old result ties.new }
{
    ties.push(procedure(symbols, name, arguments.len())?)?;
    expressions(symbols, ties, arguments)
}

/// Ties the name of a place that is set, and the names in its index.
fn place(
    symbols: &Symbols,
    loops: &Items<u32>,
    ties: &mut Items<u32>,
    place: &Place,
) -> Result<(), NameFault>
    ensures { Walks (place_faults place.now symbols.now loops.now) (place_ties place.now symbols.now) ties.old result ties.new }
{
    match place {
        Place::Name(name) => {
            ties.push(assigned(symbols, name, loops)?)?;
            Ok(())
        }
        Place::Element { name, index } => {
            ties.push(array(symbols, name)?)?;
            expression(symbols, ties, index)
        }
    }
}

/// Ties the variable of a `for` and the names in its bounds. The variable is then among the loops.
fn for_head(
    symbols: &Symbols,
    loops: &mut Items<u32>,
    ties: &mut Items<u32>,
    name: &Name,
    first: &Expr,
    last: &Expr,
) -> Result<(), NameFault>
    ensures walk { let scope = symbols.now in
        Walks (as_assigned (lookup name.now.bytes scope) name.now.line loops.old ++ (expr_faults first.now scope ++ expr_faults last.now scope))
        (name_ties name.now scope ++ (expr_ties first.now scope ++ expr_ties last.now scope)) ties.old result ties.new }
    ensures loops { OnOk result (loops.new ≡ with_loop (lookup name.now.bytes symbols.now) loops.old) }
{
    let number = assigned(symbols, name, loops)?;
    ties.push(number)?;
    expression(symbols, ties, first)?;
    expression(symbols, ties, last)?;
    loops.push(number)?;
    Ok(())
}
