ghost use Rattle.std.specs.Prelude.{◌≡◌, ◌+◌, [], ◌∷◌, ◌++◌, IfOk, OnOk, length, map};
ghost use Rattle.name_check.specs.Held.{declared_of};
ghost use Rattle.name_check.specs.declared.symbols.Symbol.TheVariants as symbol;
ghost use Rattle.name_table.specs.Entries.{Extends, Mirrors, with_new};
ghost use Rattle.source_tree.specs.Fits.{all_declared, declared_in, locals_declared, params_declared, variables_from};
ghost use Rattle.source_tree.specs.Meaning.{start_of};
ghost use Rattle.source_tree.specs.Scope.{Scope, with_all_declared, with_declared, with_variables};
ghost use Rattle.resolved_tree.specs.Resolution.{all_procedures_of, procedures_of, resolved_procedure};
ghost use Rattle.resolved_tree.specs.Slots.{slots_of};
ghost use Rattle.resolved_tree.specs.declared.slot.Slot.TheVariants.{Array, Nothing, Variable};

use crate::slot::Slot;
use crate::steps::steps;
use crate::tree::Procedure;
use name_check::Symbol;
use name_table::NameTable;
use source_tree::{Declaration, Local, Name, Param, Range, Statement, Variable};
use sqlite_items::Items;
use std::alloc::{AllocError, Global};

/// Declarations, one after another: their slots and their procedures go behind the others, their names into the table.
pub fn declarations(
    alloc: Global,
    list: &[Declaration],
    table: &mut NameTable<Symbol>,
    slots: &mut Items<Slot>,
    procedures: &mut Items<Procedure>,
) -> Result<(), AllocError>
    ensures slots { OnOk result (slots.new ≡ slots.old ++ slots_of (all_declared (length slots.old) list.now)) }
    ensures procedures { OnOk result ((scope : Scope)
        → Mirrors declared_of table.old scope
        → procedures.new ≡ procedures.old ++ all_procedures_of (length slots.old) list.now scope) }
    ensures names { OnOk result ((scope : Scope)
        → Mirrors declared_of table.old scope
        → Mirrors declared_of table.new (with_all_declared (length slots.old) list.now scope)) }
{
    for d in list {
        declaration(alloc, d, table, slots, procedures)?;
    }
    Ok(())
}

/// A declaration: its slots, its procedure and its name.
fn declaration(
    alloc: Global,
    d: &Declaration,
    table: &mut NameTable<Symbol>,
    slots: &mut Items<Slot>,
    procedures: &mut Items<Procedure>,
) -> Result<(), AllocError>
    ensures slots { OnOk result (slots.new ≡ slots.old ++ slots_of (declared_in (length slots.old) d.now)) }
    ensures procedures { OnOk result ((scope : Scope)
        → Mirrors declared_of table.old scope
        → procedures.new ≡ procedures.old ++ procedures_of (length slots.old) d.now scope) }
    ensures names { OnOk result ((scope : Scope)
        → Mirrors declared_of table.old scope
        → Mirrors declared_of table.new (with_declared (length slots.old) d.now scope)) }
{
    match d {
        Declaration::Var { name, range, .. } => variable(alloc, name, *range, table, slots),
        Declaration::Array {
            name,
            length,
            range,
            ..
        } => array(alloc, name, *length, *range, table, slots),
        Declaration::Proc {
            name,
            params,
            locals,
            body,
            ..
        } => {
            let number = procedure(
                alloc,
                params.as_slice(),
                locals.as_slice(),
                body.as_slice(),
                table,
                slots,
                procedures,
            )?;
            let symbol = Symbol::procedure(alloc, number, params.as_slice())?;
            table.declare(alloc, name.bytes.as_slice(), symbol)
        }
    }
}

/// A variable, a parameter or a local.
fn variable(
    alloc: Global,
    name: &Name,
    range: Range,
    table: &mut NameTable<Symbol>,
    slots: &mut Items<Slot>,
) -> Result<(), AllocError>
    ensures slots { OnOk result (slots.new ≡ slots.old ++ Variable (length slots.old) range ∷ []) }
    ensures table { OnOk result (table.new ≡ with_new table.old name.now.bytes (symbol.Variable (length slots.old) range)) }
{
    let number = count(slots.len())?;
    slots.push(Slot::Variable { number, range })?;
    table.declare(
        alloc,
        name.bytes.as_slice(),
        Symbol::Variable { number, range },
    )
}

/// An array.
fn array(
    alloc: Global,
    name: &Name,
    size: i128,
    range: Range,
    table: &mut NameTable<Symbol>,
    slots: &mut Items<Slot>,
) -> Result<(), AllocError>
    ensures slots { OnOk result (slots.new ≡ slots.old ++ Array (length slots.old) size range ∷ []) }
    ensures table { OnOk result (table.new ≡ with_new table.old name.now.bytes (symbol.Array (length slots.old) size range)) }
{
    let number = count(slots.len())?;
    slots.push(Slot::Array {
        number,
        length: size,
        range,
    })?;
    table.declare(
        alloc,
        name.bytes.as_slice(),
        Symbol::Array {
            number,
            length: size,
            range,
        },
    )
}

/// A procedure with its parameters, locals and body. The table is then as it was before. Its number.
fn procedure(
    alloc: Global,
    own: &[Param],
    inner: &[Local],
    body: &[Statement],
    table: &mut NameTable<Symbol>,
    slots: &mut Items<Slot>,
    procedures: &mut Items<Procedure>,
) -> Result<u32, AllocError>
    ensures number { IfOk result (λ k. k ≡ length slots.old) }
    ensures slots { let k = length slots.old in
        OnOk result (slots.new ≡ slots.old ++ Nothing ∷ slots_of (params_declared (k + 1) own.now ++ locals_declared (k + 1 + length own.now) inner.now)) }
    ensures procedures { OnOk result ((scope : Scope)
        → Mirrors declared_of table.old scope
        → procedures.new ≡ procedures.old ++ resolved_procedure (length slots.old) own.now inner.now body.now scope ∷ []) }
    ensures table { OnOk result (table.new ≡ table.old) }
{
    let outside = table.len();
    let number = count(slots.len())?;
    slots.push(Slot::Nothing)?;
    variables(alloc, own, table, slots)?;
    variables(alloc, inner, table, slots)?;
    let resolved = Procedure {
        number,
        params: count(own.len())?,
        locals: Items::from_vec(starts(alloc, inner)?),
        body: steps(alloc, body, table)?,
    };
    procedures.push(resolved)?;
    table.truncate(outside);
    Ok(number)
}

/// Parameters or locals, one after another.
fn variables<V: Variable>(
    alloc: Global,
    list: &[V],
    table: &mut NameTable<Symbol>,
    slots: &mut Items<Slot>,
) -> Result<(), AllocError>
    ensures slots { OnOk result (slots.new ≡ slots.old ++ slots_of (variables_from (length slots.old) (map V.range_of list.now))) }
    ensures names { OnOk result ((scope : Scope)
        → Mirrors declared_of table.old scope
        → Mirrors declared_of table.new (with_variables V.name_of V.range_of (length slots.old) list.now scope)) }
    ensures others { OnOk result (Extends table.old table.new) }
{
    for v in list {
        variable(alloc, v.name(), v.range(), table, slots)?;
    }
    Ok(())
}

/// The integers at which locals start.
fn starts(alloc: Global, locals: &[Local]) -> Result<Vec<i128>, AllocError>
    ensures { IfOk result (λ found. found.items ≡ map (λ l. start_of l.range) locals.now) }
{
    locals.iter().map(|l| start(l.range)).collect(alloc)
}

/// The integer of a range that is nearest to 0.
pub fn start(range: Range) -> i128
    ensures { result ≡ start_of range }
{
    if 0 < range.low {
        range.low
    } else if range.high < 0 {
        range.high
    } else {
        0
    }
}

/// How many things there are, as the number of the next; where a number has no room for it memory counts as run out.
fn count(len: usize) -> Result<u32, AllocError>
    ensures { IfOk result (λ number. number ≡ len) }
{
    if len < 4294967296 {
        Ok(len as u32)
    } else {
        Err(AllocError)
    }
}
