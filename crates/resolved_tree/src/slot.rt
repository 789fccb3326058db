ghost use Rattle.std.specs.Prelude.{◌≡◌, Some};
ghost use Rattle.name_check.specs.Held.{declared_of};
ghost use Rattle.resolved_tree.specs.Slots.{slot_of};

use name_check::Symbol;
use source_tree::Range;

/// What a name is declared as, where it stands for integers.
#[derive(Clone, Copy, Debug, PartialEq, Eq)]
pub enum Slot {
    /// A variable, parameter or local.
    Variable {
        number: u32,
        range: Range,
    },
    /// An array, with the range of its elements.
    Array {
        number: u32,
        length: i128,
        range: Range,
    },
    /// No integer: a procedure, or a name that isn't declared.
    Nothing,
}

impl Slot {
    /// What is declared, as a slot.
    pub(crate) fn of(symbol: &Symbol) -> Slot
        ensures { result ≡ slot_of (Some (declared_of symbol.now)) }
    {
        match symbol {
            Symbol::Variable { number, range } => Slot::Variable {
                number: *number,
                range: *range,
            },
            Symbol::Array {
                number,
                length,
                range,
            } => Slot::Array {
                number: *number,
                length: *length,
                range: *range,
            },
            Symbol::Procedure { .. } => Slot::Nothing,
        }
    }
}
