ghost use Rattle.std.specs.List.{All};
ghost use Rattle.std.specs.Prelude.{◌≡◌, ◌<◌, ◌≤◌, ◌≤ℤ◌, IfOk, length, pos};
ghost use Rattle.source_tree.specs.Numbers.{program_names, program_numbers};
ghost use Rattle.source_reader.specs.Reading.{IsParsed, IsRead, line_of_place, text_limit};

use crate::fault::{ReadFault, SourceFault, SourceKind};
use moduli_sets::SetName;
use name_check::check_names;
use plain_text::line_feeds;
use range_inference::{Ranged, infer};
use source_lexer::{LexFault, Token, tokens};
use source_parser::{ParseFault, parse};
use source_tree::Program;
use std::alloc::Global;

/// The program that a source text spells, on a set, or its first fault: of its tokens, else of its grammar, else of its
/// names, else of its ranges.
pub fn read(alloc: Global, text: &[u8], set: SetName) -> Result<Ranged, ReadFault>
    requires { length text.now ≤ text_limit }
    ensures { IsRead set text.now result }
{
    let program = parsed(alloc, text)?;
    let checked = check_names(alloc, program)?;
    Ok(infer(alloc, checked, set)?)
}

/// The tree that a source text spells, or the first fault of one that spells none.
///
/// No number in the tree is below 0, the bounds of ranges aside, and the names that it declares can be counted in a u32.
fn parsed(alloc: Global, text: &[u8]) -> Result<Program, ReadFault>
    requires { length text.now ≤ text_limit }
    ensures parsed { IsParsed text.now result }
    ensures numbers { IfOk result (λ program. All (λ n. pos 0 ≤ℤ n) (program_numbers program)) }
    ensures names { IfOk result (λ program. program_names program < 4294967295) }
{
    let tokens = match tokens(alloc, text) {
        Ok(tokens) => tokens,
        Err(LexFault::BadByte(line)) => return refused(SourceKind::Byte, line),
        Err(LexFault::LongLiteral(line)) => return refused(SourceKind::LongNumber, line),
        Err(LexFault::NoMemory) => return Err(ReadFault::NoMemory),
    };
    let tokens = tokens.as_slice();
    match parse(alloc, text, tokens) {
        Ok(program) => Ok(program),
        Err(ParseFault::Stops(place)) => refused(SourceKind::Syntax, line_of(text, tokens, place)),
        Err(ParseFault::Deep(place)) => refused(SourceKind::TooDeep, line_of(text, tokens, place)),
        Err(ParseFault::NoMemory) => Err(ReadFault::NoMemory),
    }
}

/// A refusal of this kind, on this line.
fn refused(kind: SourceKind, line: u32) -> Result<Program, ReadFault>
    ensures { result ≡ Err (ReadFault.Refused (record { kind = kind; line = line })) }
{
    Err(ReadFault::Refused(SourceFault { kind, line }))
}

/// The line of a token, or of the end of the text.
fn line_of(text: &[u8], tokens: &[Token], place: usize) -> u32
    requires { length text.now ≤ text_limit }
    ensures { result ≡ line_of_place text.now tokens.now place }
{
    match tokens.get(place) {
        Some(token) => token.line,
        None => line_feeds(text) as u32 + 1,
    }
}
