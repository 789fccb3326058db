ghost use Rattle.std.specs.Prelude.{◌≡◌, [], ◌∷◌, ◌++◌, IfOk, length};
ghost use Rattle.plain_text.specs.Lookup.{lookup};
ghost use Rattle.name_check.specs.Names.{as_array, as_assigned, as_procedure, as_variable, is_among, with_loop};
ghost use Rattle.name_check.specs.Reported.{IsTie};
ghost use Rattle.name_check.specs.Ties.{name_ties};

use crate::fault::NameFault;
use crate::symbols::{Symbol, Symbols};
use source_tree::Name;
use sqlite_items::Items;

/// The number of a variable, parameter or local whose integer is used.
pub fn variable(symbols: &Symbols, name: &Name) -> Result<u32, NameFault>
    ensures { IsTie (as_variable (lookup name.now.bytes symbols.now) name.now.line) (name_ties name.now symbols.now) result }
{
    match symbols.get(name.bytes.as_slice()) {
        Some(Symbol::Variable { number, .. }) => Ok(*number),
        Some(_) => Err(NameFault::WrongKind(name.line)),
        None => Err(NameFault::Unknown(name.line)),
    }
}

/// The number of an array of which an element is used.
pub fn array(symbols: &Symbols, name: &Name) -> Result<u32, NameFault>
    ensures { IsTie (as_array (lookup name.now.bytes symbols.now) name.now.line) (name_ties name.now symbols.now) result }
{
    match symbols.get(name.bytes.as_slice()) {
        Some(Symbol::Array { number, .. }) => Ok(*number),
        Some(_) => Err(NameFault::WrongKind(name.line)),
        None => Err(NameFault::Unknown(name.line)),
    }
}

/// The number of a procedure that is called with so many arguments.
pub fn procedure(symbols: &Symbols, name: &Name, arguments: usize) -> Result<u32, NameFault>
    ensures { IsTie (as_procedure (lookup name.now.bytes symbols.now) arguments name.now.line) (name_ties name.now symbols.now) result }
{
    match symbols.get(name.bytes.as_slice()) {
        Some(Symbol::Procedure { number, params }) => {
            if arguments == params.len() {
                Ok(*number)
            } else {
                Err(NameFault::Arity(name.line))
            }
        }
        Some(_) => Err(NameFault::WrongKind(name.line)),
        None => Err(NameFault::Unknown(name.line)),
    }
}

/// The number of a variable, parameter or local that is set, inside `for`s over the variables `loops`.
pub fn assigned(symbols: &Symbols, name: &Name, loops: &Items<u32>) -> Result<u32, NameFault>
    ensures tie { IsTie (as_assigned (lookup name.now.bytes symbols.now) name.now.line loops.now) (name_ties name.now symbols.now) result }
    ensures within { IfOk result (λ number. with_loop (lookup name.now.bytes symbols.now) loops.now ≡ loops.now ++ number ∷ []) }
{
    match symbols.get(name.bytes.as_slice()) {
        Some(Symbol::Variable { number, .. }) => {
            if is_among(*number, loops.as_slice()) {
                Err(NameFault::LoopAssigned(name.line))
            } else {
                Ok(*number)
            }
        }
        Some(_) => Err(NameFault::WrongKind(name.line)),
        None => Err(NameFault::Unknown(name.line)),
    }
}

fn is_among(number: u32, loops: &[u32]) -> bool
    ensures { result ≡ is_among number loops.now }
{
    loops.contains(&number)
}
