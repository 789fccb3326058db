ghost use Rattle.std.specs.Prelude.{◌≡◌, ℕ, ◌∷◌, [], OnOk};
ghost use Rattle.name_table.specs.Entries.{Extends, with_new};
ghost use Rattle.range_inference.specs.Demands.{declaration_demands, declarations_demands, declared, procedure_demands, variables_demands};
ghost use Rattle.range_inference.specs.Outcome.{IsJudged, Walks};
ghost use Rattle.range_inference.specs.Table.{HasRanges};
ghost use Rattle.source_tree.specs.Scope.{Scope, with_all_declared, with_declared, with_variables};

use crate::bound::Bound;
use crate::demand::require;
use crate::fault::RangeFault;
use crate::interval::Interval;
use crate::ranges::EMPTY;
use crate::statements::statements;
use name_table::NameTable;
use source_tree::{Declaration, Local, Name, Param, Range, Statement, Variable};
use sqlite_items::Items;
use std::alloc::Global;

/// Judges declarations, one after another, and puts their names into the table.
pub fn declarations(
    alloc: Global,
    list: &Items<Declaration>,
    table: &mut NameTable<Range>,
    bound: Bound,
    intervals: &mut Items<Interval>,
) -> Result<(), RangeFault>
    requires { table.old ≡ [] }
    ensures walk { Walks bound.value (declarations_demands 0 list.now []) intervals.old result intervals.new }
    ensures ranges { OnOk result (HasRanges table.new (with_all_declared 0 list.now [])) }
{
    for d in list.as_slice() {
        declaration(alloc, d, table, bound, intervals)?;
    }
    Ok(())
}

/// Judges a declaration, and puts its name into the table.
fn declaration(
    alloc: Global,
    d: &Declaration,
    table: &mut NameTable<Range>,
    bound: Bound,
    intervals: &mut Items<Interval>,
) -> Result<(), RangeFault>
    ensures walk { (k : ℕ) (scope : Scope)
        → HasRanges table.old scope
        → Walks bound.value (declaration_demands k d.now scope) intervals.old result intervals.new }
    ensures ranges { (k : ℕ) (scope : Scope)
        → HasRanges table.old scope
        → OnOk result (HasRanges table.new (with_declared k d.now scope)) }
{
    match d {
        Declaration::Var { name, range, line } => {
            variable(alloc, name, *range, *line, table, bound)
        }
        Declaration::Array {
            name,
            range,
            line,
            ..
        } => variable(alloc, name, *range, *line, table, bound),
        Declaration::Proc {
            name,
            params: own,
            locals: inner,
            body,
            ..
        } => {
            procedure(alloc, own, inner, body, table, bound, intervals)?;
            table.declare(alloc, name.bytes.as_slice(), EMPTY)?;
            Ok(())
        }
    }
}

/// Judges parameters, locals and a body. The table is then as it was before.
fn procedure(
    alloc: Global,
    own: &Items<Param>,
    inner: &Items<Local>,
    body: &Items<Statement>,
    table: &mut NameTable<Range>,
    bound: Bound,
    intervals: &mut Items<Interval>,
) -> Result<(), RangeFault>
    ensures walk { (k : ℕ) (scope : Scope)
        → HasRanges table.old scope
        → Walks bound.value (procedure_demands k own.now inner.now body.now scope) intervals.old result intervals.new }
    ensures table { OnOk result (table.new ≡ table.old) }
{
    let outside = table.len();
    declare_all(alloc, own, table, bound)?;
    declare_all(alloc, inner, table, bound)?;
    statements(body, table, bound, intervals)?;
    table.truncate(outside);
    Ok(())
}

/// Judges the ranges of parameters or locals, and puts their names into the table.
fn declare_all<V: Variable>(
    alloc: Global,
    list: &Items<V>,
    table: &mut NameTable<Range>,
    bound: Bound,
) -> Result<(), RangeFault>
    ensures first { IsJudged bound.value (variables_demands V.name_of V.range_of list.now) result }
    ensures ranges { OnOk result ((k : ℕ) (scope : Scope)
        → HasRanges table.old scope
        → HasRanges table.new (with_variables V.name_of V.range_of k list.now scope)) }
    ensures others { OnOk result (Extends table.old table.new) }
{
    for v in list.as_slice() {
        let name = v.name();
        variable(alloc, name, v.range(), name.line, table, bound)?;
    }
    Ok(())
}

/// Judges a declared range, and puts its name into the table.
fn variable(
    alloc: Global,
    name: &Name,
    range: Range,
    line: u32,
    table: &mut NameTable<Range>,
    bound: Bound,
) -> Result<(), RangeFault>
    ensures first { IsJudged bound.value (declared range line ∷ []) result }
    ensures table { OnOk result (table.new ≡ with_new table.old name.now.bytes range) }
{
    require(Interval::of_range(range), line, bound)?;
    table.declare(alloc, name.bytes.as_slice(), range)?;
    Ok(())
}
