ghost use Rattle.std.specs.List.{All};
ghost use Rattle.std.specs.Prelude.{◌≤◌, ◌≤ℤ◌, [], IfOk, length, pos};
ghost use Rattle.source_parser.specs.Limits.{depth_limit, weight_limit};
ghost use Rattle.source_parser.specs.Grammar.{ReadsProgram};
ghost use Rattle.source_parser.specs.Landings.{IsFaultOf};
ghost use Rattle.source_tree.specs.Numbers.{program_names, program_numbers};
ghost use Rattle.source_lexer.specs.Scan.{Scans, whole};
ghost use Rattle.source_parser.specs.Parsed.{IsParsed, IsProgramOf};

use crate::declaration::{DEPTH_LIMIT, declarations};
use crate::fault::{Fault, ParseFault};
use crate::reader::Reader;
use crate::statement::statements;
use source_lexer::Token;
use source_tree::Program;
use std::alloc::Global;

/// The program that the tokens of a text spell. Otherwise the first token at fault, want of memory aside; a token
/// that no program goes on with is reported as that before it is reported as too deep.
///
/// No number in the program is below 0, and it declares at most as many names as the text has bytes.
pub fn parse(alloc: Global, text: &[u8], tokens: &[Token]) -> Result<Program, ParseFault>
    requires { Scans text.now tokens.now whole }
    ensures parsed { IsParsed text.now tokens.now result }
    ensures program { IsProgramOf text.now result }
    ensures numbers { IfOk result (λ program. All (λ n. pos 0 ≤ℤ n) (program_numbers program)) }
    ensures names { IfOk result (λ program. program_names program ≤ length text.now) }
{
    let mut reader = Reader::new(text, tokens);
    let fault = match program(alloc, &mut reader) {
        Ok(program) => return Ok(program),
        Err(fault) => fault,
    };
    let place = tokens.len() - reader.len();
    Err(match fault {
        Fault::Stops => ParseFault::Stops(place),
        Fault::Deep => ParseFault::Deep(place),
        Fault::NoMemory => ParseFault::NoMemory,
    })
}

/// Declarations, and then statements up to the end.
fn program(alloc: Global, reader: &mut Reader<'_>) -> Result<Program, Fault>
    ensures value { IfOk result (λ found. ReadsProgram depth_limit weight_limit reader.old found []) }
    ensures fault { IsFaultOf reader.old result reader.new }
    ensures shorter { length reader.new ≤ length reader.old }
{
    let declarations = declarations(alloc, reader)?;
    let statements = statements(alloc, reader, DEPTH_LIMIT)?;
    if reader.len() > 0 {
        return Err(Fault::Stops);
    }
    Ok(Program {
        declarations,
        statements,
    })
}
