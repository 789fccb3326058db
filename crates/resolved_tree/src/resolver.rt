ghost use Rattle.std.specs.Prelude.{◌≡◌, IfOk};
ghost use Rattle.resolved_tree.specs.Resolution.{resolved_of};

use crate::declarations::declarations;
use crate::steps::steps;
use crate::tree::Resolved;
use name_table::NameTable;
use source_tree::Program;
use sqlite_items::Items;
use std::alloc::{AllocError, Global};

/// The resolved tree of a program. AllocError where memory runs out.
pub fn resolve(alloc: Global, program: &Program) -> Result<Resolved, AllocError>
    ensures { IfOk result (λ resolved. resolved ≡ resolved_of program.now) }
{
    let mut table = NameTable::new(alloc);
    let mut slots = Items::new(alloc);
    let mut procedures = Items::new(alloc);
    declarations(
        alloc,
        program.declarations.as_slice(),
        &mut table,
        &mut slots,
        &mut procedures,
    )?;
    let steps = steps(alloc, program.statements.as_slice(), &table)?;
    Ok(Resolved {
        slots,
        procedures,
        steps,
    })
}
