ghost use Rattle.std.specs.List.{All};
ghost use Rattle.std.specs.Prelude.{◌<◌, ◌≤ℤ◌, IfOk, pos};
ghost use Rattle.source_tree.specs.Numbers.{program_names, program_numbers};

use crate::places::PLACES;
use crate::random_places::RANDOM_PLACES;
use source_lexer::tokens;
use source_parser::{ParseFault, parse};
use source_tree::Program;
use std::alloc::Global;
use std::test::Fail;

/// A text in which `{N TEXT}` stands for TEXT N times.
fn spread(alloc: Global, text: &str) -> Result<String, Fail> {
    let mut made = String::new(alloc);
    for piece in text.split('{') {
        match piece.split_once('}') {
            None => made.push_str(piece)?,
            Some((inside, behind)) => {
                if let Some((number, part)) = inside.split_once(' ') {
                    for _ in 0..number.parse::<usize>()? {
                        made.push_str(part)?;
                    }
                }
                made.push_str(behind)?;
            }
        }
    }
    Ok(made)
}

/// What the tokens of a text spell. No text here is cut by the limit.
pub fn parsed(alloc: Global, text: &str) -> Result<Result<Program, ParseFault>, Fail>
    ensures few { IfOk result (λ parsed. IfOk parsed (λ program. program_names program < 4294967295)) }
    ensures natural { IfOk result (λ parsed. IfOk parsed (λ program. All (λ n. pos 0 ≤ℤ n) (program_numbers program))) }
{
    let text = &text.as_bytes()[..text.len().min(100_000)];
    let tokens = tokens(alloc, text)?;
    Ok(parse(alloc, text, tokens.as_slice()))
}

/// What is reported of a text, as the table writes it.
fn reported(alloc: Global, text: &str) -> Result<String, Fail> {
    Ok(match parsed(alloc, text)? {
        Ok(_) => format!(in alloc; "ok")?,
        Err(ParseFault::Stops(place)) => format!(in alloc; "stops {place}")?,
        Err(ParseFault::Deep(place)) => format!(in alloc; "deep {place}")?,
        Err(ParseFault::NoMemory) => format!(in alloc; "no memory")?,
    })
}

#[test]
fn where_tokens_stop(rt: HostRuntime) -> Result<(), Fail> {
    for line in PLACES.lines().chain(RANDOM_PLACES.lines()) {
        match line.split_once(" | ") {
            Some((wanted, text)) => {
                let text = spread(rt.alloc(), text)?;
                let found = reported(rt.alloc(), text.as_str())?;
                assert_eq!(rt; found.as_str(), wanted, "{line}");
            }
            None => assert!(rt; false, "{line}"),
        }
    }
    Ok(())
}
