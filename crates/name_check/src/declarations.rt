ghost use Rattle.std.specs.Prelude.{◌≡◌, ◌+◌, ◌<◌, ◌∷◌, ◌++◌, [], IfErr, None, OnOk, length, map, nat_eq};
ghost use Rattle.plain_text.specs.Lookup.{lookup};
ghost use Rattle.source_tree.specs.Scope.{inside, names_in, procedure, variable, with_declared, with_locals, with_params, with_variables};
ghost use Rattle.name_check.specs.declared.fault.NameFault.TheVariants.{NoMemory, TooMany};
ghost use Rattle.name_check.specs.Names.{all_faults, as_new, declaration_faults, locals_faults, most_procedures, params_faults, procedures_in, range_faults, statement_faults, variables_faults, where_broken};
ghost use Rattle.name_check.specs.Reported.{IsFirst, Walks};
ghost use Rattle.name_check.specs.Ties.{all_ties, declaration_ties, statement_ties};

use crate::fault::NameFault;
use crate::statements::statements;
use crate::symbols::{Symbol, Symbols};
use source_tree::{Declaration, Local, Name, Param, Range, Statement, Variable};
use sqlite_items::Items;
use std::alloc::Global;

/// How many procedures there may be.
const MOST_PROCEDURES: u32 = 64;

/// Declares what a declaration declares, from a number on, after so many procedures, and ties the names in it.
pub fn declaration(
    alloc: Global,
    symbols: &mut Symbols,
    ties: &mut Items<u32>,
    d: &Declaration,
    number: u32,
    procedures: u32,
) -> Result<(), NameFault>
    requires { number + names_in d.now < 4294967296 }
    ensures walk { Walks (declaration_faults number procedures d.now symbols.old) (declaration_ties number d.now symbols.old) ties.old result ties.new }
    ensures declared { OnOk result (symbols.new ≡ with_declared number d.now symbols.old) }
{
    match d {
        Declaration::Var { name, range, line } => {
            new_name(symbols, name)?;
            range_in_order(*range, *line)?;
            symbols.declare(
                alloc,
                name.bytes.as_slice(),
                Symbol::Variable {
                    number,
                    range: *range,
                },
            )?;
            Ok(())
        }
        Declaration::Array {
            name,
            length,
            range,
            line,
        } => {
            new_name(symbols, name)?;
            if *length == 0 {
                return Err(NameFault::EmptyArray(name.line));
            }
            range_in_order(*range, *line)?;
            symbols.declare(
                alloc,
                name.bytes.as_slice(),
                Symbol::Array {
                    number,
                    length: *length,
                    range: *range,
                },
            )?;
            Ok(())
        }
        Declaration::Proc {
            name,
            params,
            locals,
            body,
            ..
        } => {
            procedure_heading(symbols, name, procedures)?;
            procedure_inside(alloc, symbols, ties, params, locals, body, number)?;
            declare_procedure(alloc, symbols, name, params, number)
        }
    }
}

/// Another procedure may be declared by a name, after so many procedures.
fn procedure_heading(symbols: &Symbols, heading: &Name, procedures: u32) -> Result<(), NameFault>
    ensures first { IsFirst (as_new heading.now symbols.now ++ where_broken (nat_eq procedures most_procedures) (TooMany heading.now.line)) result }
    ensures new { OnOk result (lookup heading.now.bytes symbols.now ≡ None) }
{
    new_name(symbols, heading)?;
    if procedures == MOST_PROCEDURES {
        Err(NameFault::TooMany(heading.line))
    } else {
        Ok(())
    }
}

/// Declares a procedure.
fn declare_procedure(
    alloc: Global,
    symbols: &mut Symbols,
    name: &Name,
    params: &Items<Param>,
    number: u32,
) -> Result<(), NameFault>
    requires { lookup name.now.bytes symbols.old ≡ None }
    ensures declared { OnOk result (symbols.new ≡ symbols.old ++ (name.now.bytes, procedure number (map (λ p. p.range) params.now)) ∷ []) }
    ensures err { IfErr result (λ fault. fault ≡ NoMemory) }
{
    let symbol = Symbol::procedure(alloc, number, params.as_slice())?;
    symbols.declare(alloc, name.bytes.as_slice(), symbol)?;
    Ok(())
}

/// The parameters, locals and statements of the procedure of a number, which is left again.
fn procedure_inside(
    alloc: Global,
    symbols: &mut Symbols,
    ties: &mut Items<u32>,
    params: &Items<Param>,
    locals: &Items<Local>,
    body: &Items<Statement>,
    number: u32,
) -> Result<(), NameFault>
    requires { number + (1 + length params.now + length locals.now) < 4294967296 }
    ensures walk { let scope = symbols.old in
        Walks (params_faults (number + 1) params.now scope ++ (locals_faults (number + 1 + length params.now) locals.now (with_params (number + 1) params.now scope) ++
        all_faults (map statement_faults body.now) (inside number params.now locals.now scope) []))
        (all_ties (map statement_ties body.now) (inside number params.now locals.now scope)) ties.old result ties.new }
    ensures left { OnOk result (symbols.new ≡ symbols.old) }
{
    let outside = symbols.len();
    let first = number + 1;
    declare_inside(
        alloc,
        symbols,
        params,
        locals,
        first,
        first + params.len() as u32,
    )?;
    let mut loops = Items::new(alloc);
    statements(symbols, &mut loops, ties, body)?;
    symbols.truncate(outside);
    Ok(())
}

/// Declares the parameters of a procedure from one number on, and its locals from another on.
fn declare_inside(
    alloc: Global,
    symbols: &mut Symbols,
    params: &Items<Param>,
    locals: &Items<Local>,
    first: u32,
    second: u32,
) -> Result<(), NameFault>
    requires after_params { second ≡ first + length params.now }
    requires numbers { second + length locals.now < 4294967296 }
    ensures first { IsFirst (params_faults first params.now symbols.old ++ locals_faults (first + length params.now) locals.now (with_params first params.now symbols.old)) result }
    ensures scope { OnOk result (symbols.new ≡ with_locals (first + length params.now) locals.now (with_params first params.now symbols.old)) }
{
    declare_all(alloc, symbols, params, first)?;
    declare_all(alloc, symbols, locals, second)
}

/// Declares the parameters or the locals of a procedure, from a number on.
fn declare_all<V: Variable>(
    alloc: Global,
    symbols: &mut Symbols,
    variables: &Items<V>,
    first: u32,
) -> Result<(), NameFault>
    requires { first + length variables.now < 4294967296 }
    ensures first { IsFirst (variables_faults V.name_of V.range_of first variables.now symbols.old) result }
    ensures scope { OnOk result (symbols.new ≡ with_variables V.name_of V.range_of first variables.now symbols.old) }
{
    let mut number = first;
    for v in variables.as_slice() {
        declare(alloc, symbols, v.name(), v.range(), number)?;
        number += 1;
    }
    Ok(())
}

/// Declares a parameter or a local.
fn declare(
    alloc: Global,
    symbols: &mut Symbols,
    name: &Name,
    range: Range,
    number: u32,
) -> Result<(), NameFault>
    ensures first { IsFirst (as_new name.now symbols.old ++ range_faults range name.now.line) result }
    ensures declared { OnOk result (symbols.new ≡ symbols.old ++ (name.now.bytes, variable number range) ∷ []) }
{
    new_name(symbols, name)?;
    range_in_order(range, name.line)?;
    symbols.declare(
        alloc,
        name.bytes.as_slice(),
        Symbol::Variable { number, range },
    )?;
    Ok(())
}

/// A name that is declared isn't visible yet.
fn new_name(symbols: &Symbols, name: &Name) -> Result<(), NameFault>
    ensures first { IsFirst (as_new name.now symbols.now) result }
    ensures new { OnOk result (lookup name.now.bytes symbols.now ≡ None) }
{
    match symbols.get(name.bytes.as_slice()) {
        Some(_) => Err(NameFault::Twice(name.line)),
        None => Ok(()),
    }
}

/// The low bound of a range isn't above its high bound.
fn range_in_order(range: Range, line: u32) -> Result<(), NameFault>
    ensures { IsFirst (range_faults range line) result }
{
    if range.high < range.low {
        Err(NameFault::BadRange(line))
    } else {
        Ok(())
    }
}

/// How many names a declaration declares.
pub fn names_in(d: &Declaration) -> u32
    requires { names_in d.now < 4294967296 }
    ensures { result ≡ names_in d.now }
{
    match d {
        Declaration::Var { .. } | Declaration::Array { .. } => 1,
        Declaration::Proc { params, locals, .. } => 1 + params.len() as u32 + locals.len() as u32,
    }
}

/// How many procedures a declaration declares.
pub fn procedures_in(d: &Declaration) -> u32
    ensures { result ≡ procedures_in d.now }
{
    match d {
        Declaration::Var { .. } | Declaration::Array { .. } => 0,
        Declaration::Proc { .. } => 1,
    }
}
