ghost use Rattle.std.specs.Prelude.{◌≡◌, ◌<◌, ◌≤ℤ◌, IfOk, [], pos, sum_by};
ghost use Rattle.std.specs.List.{All};
ghost use Rattle.source_tree.specs.Numbers.{program_names, program_numbers};
ghost use Rattle.source_tree.specs.Scope.{names_in};
ghost use Rattle.name_check.specs.Names.{faults_of_rest, name_faults};
ghost use Rattle.name_check.specs.Reported.{IsFirst, Walks};
ghost use Rattle.name_check.specs.Ties.{ties_of, ties_of_rest};

use crate::checked::Checked;
use crate::declarations::{declaration, names_in, procedures_in};
use crate::fault::NameFault;
use crate::statements::statements as walk_statements;
use crate::symbols::Symbols;
use source_tree::{Declaration, Program, Statement};
use sqlite_items::Items;
use std::alloc::Global;

/// The program with each use of a name tied to its declaration, where it keeps all rules of names; otherwise the first
/// that it breaks in text order, want of memory aside.
pub fn check_names(alloc: Global, program: Program) -> Result<Checked, NameFault>
    requires few { program_names program < 4294967295 }
    requires natural { All (λ n. pos 0 ≤ℤ n) (program_numbers program) }
    ensures first { IsFirst (name_faults program) result }
    ensures program { IfOk result (λ checked. checked.program ≡ program) }
    ensures ties { IfOk result (λ checked. checked.ties ≡ ties_of program) }
{
    let mut ties = Items::new(alloc);
    walk(
        alloc,
        program.declarations.as_slice(),
        &program.statements,
        &mut ties,
    )?;
    Ok(Checked { program, ties })
}

/// Ties the names in the declarations and the statements of a program.
fn walk(
    alloc: Global,
    declarations: &[Declaration],
    statements: &Items<Statement>,
    ties: &mut Items<u32>,
) -> Result<(), NameFault>
    requires { sum_by names_in declarations.now < 4294967295 }
    ensures { Walks (faults_of_rest 0 0 declarations.now statements.now []) (ties_of_rest 0 declarations.now statements.now []) ties.old result ties.new }
{
    let mut symbols = Symbols::new(alloc);
    let mut number = 0;
    let mut procedures = 0;
    for d in declarations {
        declaration(alloc, &mut symbols, ties, d, number, procedures)?;
        number += names_in(d);
        procedures += procedures_in(d);
    }
    let mut loops = Items::new(alloc);
    walk_statements(&symbols, &mut loops, ties, statements)
}
