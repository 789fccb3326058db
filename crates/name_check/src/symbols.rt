ghost use Rattle.std.specs.Prelude.{◌≡◌, [], ◌∷◌, ◌++◌, length, map, take, IfOk, MatchOption, None, OnOk, Some};
ghost use Rattle.plain_text.specs.Lookup.{lookup};
ghost use Rattle.name_check.specs.Held.{declared_of};
ghost use Rattle.name_check.specs.declared.symbols.Symbol.TheVariants.{Procedure};

use name_table::NameTable;
use source_tree::{Param, Range};
use sqlite_items::Items;
use std::alloc::{AllocError, Global};
use std::marker::Model;

/// What a name is declared as, with its number.
#[derive(Debug, Drop)]
pub enum Symbol {
    /// A variable, parameter or local.
    Variable {
        number: u32,
        range: Range,
    },
    Array {
        number: u32,
        length: i128,
        range: Range,
    },
    /// A procedure, with the ranges of its parameters.
    Procedure {
        number: u32,
        params: Items<Range>,
    },
}

impl Symbol {
    /// A procedure of a number with its parameters. AllocError where memory runs out.
    pub fn procedure(alloc: Global, number: u32, params: &[Param]) -> Result<Symbol, AllocError>
        ensures { IfOk result (λ symbol. symbol ≡ Procedure number (map (λ p. p.range) params.now)) }
    {
        let ranges = ranges(alloc, params)?;
        Ok(Symbol::Procedure {
            number,
            params: Items::from_vec(ranges),
        })
    }
}

/// The ranges of parameters.
fn ranges(alloc: Global, params: &[Param]) -> Result<Vec<Range>, AllocError>
    ensures { IfOk result (λ found. found.items ≡ map (λ p. p.range) params.now) }
{
    params.iter().map(|p| p.range).collect(alloc)
}

/// The names that are visible at a place of a source, in the order of their declarations: those declared outside
/// procedures, and then the parameters and locals of the procedure around the place.
#[derive(Drop)]
pub struct Symbols {
    table: NameTable<Symbol>,
}

impl Model for Symbols {
    ghost use Rattle.source_tree.specs.Scope.{Scope};
    ghost use Rattle.name_check.specs.Held.{scope_in};

    ghost Value = { Scope };

    ghost view = { λ symbols. scope_in symbols.table };
}

impl Symbols {
    pub fn new(alloc: Global) -> Symbols
        ensures { result ≡ [] }
    {
        Symbols {
            table: NameTable::new(alloc),
        }
    }

    /// How many names are visible.
    pub fn len(&self) -> usize
        ensures { result ≡ length self.now }
    {
        self.table.len()
    }

    /// What a name stands for. None where it isn't visible.
    pub fn get(&self, name: &[u8]) -> Option<&Symbol>
        ensures { MatchOption result (lookup name.now self.now ≡ None)
            (λ symbol. lookup name.now self.now ≡ Some (declared_of symbol.now)) }
    {
        self.table.get(name)
    }

    /// Declares a name that isn't visible yet.
    pub fn declare(&mut self, alloc: Global, name: &[u8], symbol: Symbol) -> Result<(), AllocError>
        requires { lookup name.now self.old ≡ None }
        ensures { OnOk result (self.new ≡ self.old ++ (name.now, declared_of symbol) ∷ []) }
    {
        self.table.declare(alloc, name, symbol)
    }

    /// Leaves a procedure: only the first `len` names stay visible.
    pub fn truncate(&mut self, len: usize)
        ensures { self.new ≡ take len self.old }
    {
        self.table.truncate(len);
    }
}
