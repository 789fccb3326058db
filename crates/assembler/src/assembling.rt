ghost use Rattle.std.specs.Prelude.{◌≡◌, ◌+◌, ◌<◌, ◌≤◌, ◌∷◌, ◌++◌, [], length, List, ℕ, IfSome, None, MatchResult, if◌then◌else◌};
ghost use Rattle.std.specs.Str.Lines.{strip_carriage_return};
ghost use Rattle.machine_table.specs.Objects.{code_of, set_of_object, words_of};
ghost use Rattle.assembler.specs.Assembly.{IsRefusal, Spells};
ghost use Rattle.assembler.specs.Taken.{IsRead, IsRefusedAt};

use crate::AsmFault;
use crate::program::Program;
use crate::statement::{line_in, set_in};
use crate::words::Words;
use machine_table::Object;
use plain_text::line_feeds;
use std::alloc::Global;

/// The object that a text spells. The first line that breaks the grammar or has the label of a line before it is refused; then
/// the first target that no line names; then the first rule of programs that the program breaks. NoMemory where
/// memory runs out.
pub fn assemble(alloc: Global, text: &[u8]) -> Result<Object, AsmFault>
    requires { length text.now ≤ 4294967294 }
    ensures { MatchResult result
        (λ object. Spells text.now (set_of_object object) (code_of object) (words_of object))
        (IsRefusal text.now) }
{
    let last = line_feeds(text) as u32 + 1;
    let mut program = None;
    let mut number: u32 = 0;
    for part in text.split(|byte| *byte == b'\n') {
        number += 1;
        let line = line_of(part, number == last);
        program = with_line(alloc, program, Words::of(line), number)?;
    }
    match program {
        Some(program) => program.object(alloc),
        None => Err(AsmFault::BadLine(1)),
    }
}

/// The line that a part of a text between LF is: an LF after it takes one CR before it along.
fn line_of(part: &[u8], is_last: bool) -> &[u8]
    ensures { result.now ≡ (if is_last then part.now else strip_carriage_return part.now) }
{
    if is_last {
        return part;
    }
    part.strip_suffix(b"\r").unwrap_or(part)
}

/// The program with one line more, where it has begun; it begins with the set line.
fn with_line<'t>(
    alloc: Global,
    program: Option<Program<'t>>,
    words: Words<'t>,
    number: u32,
) -> Result<Option<Program<'t>>, AsmFault>
    requires { IfSome program (λ p. p.instructions < number) }
    ensures { (lines : List (List (List ℕ))) → IsRead lines program.entry → number ≡ length lines + 1
        → MatchResult result (IsRead (lines ++ words.entry ∷ [])) (IsRefusedAt lines words.entry) }
{
    let Some(mut program) = program else {
        return begun(alloc, words, number);
    };
    match line_in(words) {
        Some(said) => {
            program.take(alloc, said, number)?;
            Ok(Some(program))
        }
        None => Err(AsmFault::BadLine(number)),
    }
}

/// The program that begins with this line, where it has words.
fn begun<'t>(alloc: Global, words: Words<'t>, number: u32) -> Result<Option<Program<'t>>, AsmFault>
    ensures { (lines : List (List (List ℕ))) → IsRead lines None → number ≡ length lines + 1
        → MatchResult result (IsRead (lines ++ words.entry ∷ [])) (IsRefusedAt lines words.entry) }
{
    if words.are_none() {
        return Ok(None);
    }
    match set_in(words) {
        Some(set) => Ok(Some(Program::new(alloc, set, number))),
        None => Err(AsmFault::BadLine(number)),
    }
}
