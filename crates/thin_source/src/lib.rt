//! Thin sources: declarations, and then assignments and prints of sums of products, run on residues.
//!
//! In comes a text as bytes, out goes its program, or None where it is no thin source. A program's variables
//! start as vectors of residues; as it runs, each integer that it prints goes to a sink as one line. The crate
//! calls `source_lexer` and `plain_text` to read, `moduli_sets` and `channel_alu` to compute, `number_text` and
//! `outside` to print. Its tests stand in `command_tests`. It serves until the whole language is compiled, and
//! then goes as a whole.
#![tactic(auto)]

ghost use Rattle.std.specs.Prelude.{◌≡◌, ◌≤◌, length, IfOk, MatchOption};
ghost use Rattle.thin_source.specs.ThinTree as source;
ghost use Rattle.thin_source.specs.ThinView.{program_view};
ghost use Rattle.thin_source.specs.ThinMeaning.{IsThin};

mod expressions;
mod interval;
mod machine;
mod parser;
mod residues;
mod rules;
mod tree;

pub use machine::{run, start};
use parser::parse;
use rules::is_lawful;
use source_lexer::{LexFault, one_scan, tokens};
use std::alloc::{AllocError, Global};
pub use tree::Program;

/// The most tokens that a thin source has.
const TOKEN_LIMIT: usize = 400;

/// The thin source that a text spells. None where it spells none, or one that breaks a rule; an Err comes where
/// memory runs out. The text has at most as many bytes as the lexer takes.
pub fn read<'a>(alloc: Global, text: &'a [u8]) -> Result<Option<Program<'a>>, AllocError>
    requires { length text.now ≤ 4294967294 }
    ensures { IfOk result (λ found. MatchOption found ((program : source.Program) → IsThin text.now program → ⊥)
        (λ program. IsThin text.now (program_view program))) }
{
    // A text has one scan, so that what the first one shows holds of every spelling.
    one_scan();
    let tokens = match tokens(alloc, text) {
        Ok(tokens) => tokens,
        Err(LexFault::NoMemory) => return Err(AllocError),
        Err(_) => return Ok(None),
    };
    if tokens.len() > TOKEN_LIMIT {
        return Ok(None);
    }
    let Some(program) = parse(alloc, text, tokens.as_slice())? else {
        return Ok(None);
    };
    if is_lawful(&program) {
        Ok(Some(program))
    } else {
        Ok(None)
    }
}
