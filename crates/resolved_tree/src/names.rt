ghost use Rattle.std.specs.Prelude.{◌≡◌, MatchOption, None, Some};
ghost use Rattle.plain_text.specs.Lookup.{lookup};
ghost use Rattle.name_check.specs.Held.{declared_of, scope_in};
ghost use Rattle.resolved_tree.specs.Resolution.{slot_at};

use crate::slot::Slot;
use name_check::Symbol;
use name_table::NameTable;
use source_tree::Name;

/// What a name stands for. None where it isn't declared.
pub fn find<'a>(name: &Name, table: &'a NameTable<Symbol>) -> Option<&'a Symbol>
    ensures { MatchOption result (lookup name.now.bytes (scope_in table.now) ≡ None)
        (λ symbol. lookup name.now.bytes (scope_in table.now) ≡ Some (declared_of symbol.now)) }
{
    table.get(name.bytes.as_slice())
}

/// The slot of a name.
pub fn slot(name: &Name, table: &NameTable<Symbol>) -> Slot
    ensures { result ≡ slot_at name.now (scope_in table.now) }
{
    match find(name, table) {
        Some(symbol) => Slot::of(symbol),
        None => Slot::Nothing,
    }
}
