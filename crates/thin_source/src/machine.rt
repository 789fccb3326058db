//! Thin programs on residues: each variable is a vector, each residue is worked on by its channel type, and an
//! integer comes back by trying each one in range.
ghost use Rattle.std.specs.Prelude.{◌≡◌, true, [], ◌∷◌, map, IfOk};
ghost use Rattle.moduli_sets.specs.Moduli.{set_of};
ghost use Rattle.moduli_sets.specs.Name.{set_of_name};
ghost use Rattle.moduli_sets.specs.declared.set_name.SetName.TheVariants.{Pocket};
ghost use Rattle.thin_source.specs.ThinView.{declaration_view, statement_view, program_view};
ghost use Rattle.thin_source.specs.ThinRules.{IsLawful, is_range, is_lawful_statement};
ghost use Rattle.thin_source.specs.ThinMeaning.{State, nearest_to_zero, start_of, prints_from, prints_of};
ghost use Rattle.thin_source.specs.ThinVectors.{vectors_of};
ghost use Rattle.thin_source.specs.ThinStates.{Holds, state_after};
ghost use Rattle.outside.specs.Sink.{PutsPieces};
ghost use Rattle.number_text.specs.Lines.{print_lines};

use super::expressions::{place_of, sum_of};
use super::residues::integer_of;
use super::tree::{Declaration, Program, Statement};
use moduli_sets::{Moduli, SetName, Vector};
use number_text::line_of;
use outside::{Put, Sink};
use std::alloc::{AllocError, Global};

/// The vectors at which the variables start.
pub fn start(alloc: Global, program: &Program) -> Result<Vec<Vector>, AllocError>
    requires { IsLawful (program_view program.now) }
    ensures { IfOk result (λ variables. variables.items ≡ vectors_of (start_of (program_view program.now).declarations)) }
{
    let set = Moduli::of(SetName::Pocket);
    let mut variables = Vec::new(alloc);
    for declaration in &program.declarations {
        variables.push(set.residues_of(first_value_of(declaration)))?;
    }
    Ok(variables)
}

/// The value at which a variable starts: the number of its range that is nearest to 0.
fn first_value_of(declaration: &Declaration) -> i128
    requires { is_range (declaration_view declaration.now) ≡ true }
    ensures { result ≡ nearest_to_zero declaration.now.low declaration.now.high }
{
    0.clamp(declaration.low, declaration.high)
}

/// Runs a program from where its variables start. Each print is one put of a line; it takes no memory.
pub fn run<K: Sink>(program: &Program, mut variables: Vec<Vector>, sink: &mut K) -> Put
    requires lawful { IsLawful (program_view program.now) }
    requires started { variables.items ≡ vectors_of (start_of (program_view program.now).declarations) }
    ensures { PutsPieces K.puts K.state sink.old (print_lines (prints_of (program_view program.now))) result sink.new }
{
    let set = Moduli::of(SetName::Pocket);
    for statement in &program.statements {
        match execute(&set, &program.declarations, &mut variables, statement, sink) {
            Put::Done => {}
            Put::Failed => return Put::Failed,
        }
    }
    Put::Done
}

/// One statement: an assignment changes a variable and puts nothing, a print is one put of a line.
fn execute<K: Sink>(
    set: &Moduli,
    declarations: &[Declaration],
    variables: &mut [Vector],
    statement: &Statement,
    sink: &mut K,
) -> Put
    requires pocket { set_of set.now ≡ set_of_name Pocket }
    requires lawful { is_lawful_statement (map declaration_view declarations.now) (statement_view statement.now) ≡ true }
    requires held { (state : State) × Holds (map declaration_view declarations.now) variables.old state }
    ensures held { (state : State)
        → Holds (map declaration_view declarations.now) variables.old state
        → Holds (map declaration_view declarations.now) variables.new (state_after state (statement_view statement.now)) }
    ensures put { (state : State)
        → Holds (map declaration_view declarations.now) variables.old state
        → PutsPieces K.puts K.state sink.old (print_lines (prints_from state (statement_view statement.now ∷ []))) result sink.new }
{
    match statement {
        Statement::Assign(name, sum) => {
            variables[place_of(declarations, name)] = sum_of(set, declarations, variables, sum);
            Put::Done
        }
        Statement::Print(sum) => {
            let value = sum_of(set, declarations, variables, sum);
            sink.put(line_of(integer_of(set, &value)).as_slice())
        }
    }
}
