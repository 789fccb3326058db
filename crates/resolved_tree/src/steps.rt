ghost use Rattle.std.specs.Prelude.{◌≡◌, IfOk};
ghost use Rattle.plain_text.specs.Lookup.{lookup};
ghost use Rattle.name_check.specs.Held.{scope_in};
ghost use Rattle.resolved_tree.specs.Resolution.{resolved_arguments, resolved_call, resolved_statement, resolved_statements};

use crate::names::{find, slot};
use crate::tree::{Argument, Step};
use crate::values::{target, test, value};
use name_check::Symbol;
use name_table::NameTable;
use source_tree::{Expr, Name, Range, Statement};
use sqlite_items::Items;
use std::alloc::{AllocError, Global};

/// Statements, resolved one after another.
#[cycle(step)]
pub fn steps(
    alloc: Global,
    list: &[Statement],
    table: &NameTable<Symbol>,
) -> Result<Items<Step>, AllocError>
    ensures { IfOk result (λ steps. steps ≡ resolved_statements list.now (scope_in table.now)) }
{
    let mut found = Items::new(alloc);
    for s in list {
        found.push(step(alloc, s, table)?)?;
    }
    Ok(found)
}

/// A statement, resolved.
#[cycle(step)]
fn step(alloc: Global, s: &Statement, table: &NameTable<Symbol>) -> Result<Step, AllocError>
    ensures { IfOk result (λ step. step ≡ resolved_statement s.now (scope_in table.now)) }
{
    match s {
        Statement::Assign {
            place,
            value: e,
            line,
        } => Ok(Step::Assign {
            target: target(alloc, place, table)?,
            value: value(alloc, e, table)?,
            line: *line,
        }),
        Statement::Print { value: e, .. } => Ok(Step::Print {
            value: value(alloc, e, table)?,
        }),
        Statement::Read { place, line } => Ok(Step::Read {
            target: target(alloc, place, table)?,
            line: *line,
        }),
        Statement::If {
            condition,
            first,
            second,
            ..
        } => Ok(Step::If {
            test: test(alloc, condition, table)?,
            first: steps(alloc, first.as_slice(), table)?,
            second: steps(alloc, second.as_slice(), table)?,
        }),
        Statement::For {
            name,
            first,
            last,
            body,
            line,
        } => Ok(Step::For {
            slot: slot(name, table),
            first: value(alloc, first, table)?,
            last: value(alloc, last, table)?,
            body: steps(alloc, body.as_slice(), table)?,
            line: *line,
        }),
        Statement::While {
            condition,
            limit,
            body,
            line,
        } => Ok(Step::While {
            test: test(alloc, condition, table)?,
            limit: *limit,
            body: steps(alloc, body.as_slice(), table)?,
            line: *line,
        }),
        Statement::Call {
            name,
            arguments: es,
            line,
        } => call(alloc, name, es.as_slice(), *line, table),
    }
}

/// A call, resolved.
fn call(
    alloc: Global,
    name: &Name,
    es: &[Expr],
    line: u32,
    table: &NameTable<Symbol>,
) -> Result<Step, AllocError>
    ensures { IfOk result (λ step. step ≡ resolved_call (lookup name.now.bytes (scope_in table.now)) es.now line (scope_in table.now)) }
{
    match find(name, table) {
        Some(Symbol::Procedure { number, params }) => Ok(Step::Call {
            procedure: *number,
            arguments: arguments(alloc, es, params.as_slice(), table)?,
            line,
        }),
        Some(Symbol::Variable { .. }) => Ok(Step::Skip),
        Some(Symbol::Array { .. }) => Ok(Step::Skip),
        None => Ok(Step::Skip),
    }
}

/// Arguments, resolved, each with the range of its parameter; those without a parameter are left out.
fn arguments(
    alloc: Global,
    es: &[Expr],
    params: &[Range],
    table: &NameTable<Symbol>,
) -> Result<Items<Argument>, AllocError>
    ensures { IfOk result (λ arguments. arguments ≡ resolved_arguments es.now params.now (scope_in table.now)) }
{
    let mut found = Items::new(alloc);
    for e in es {
        match params.get(found.len()) {
            Some(range) => found.push(Argument {
                value: value(alloc, e, table)?,
                range: *range,
            })?,
            None => return Ok(found),
        }
    }
    Ok(found)
}
