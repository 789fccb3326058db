//! Programs that tokens spell.
//!
//! In come a source text and its tokens, out goes the tree that they spell by the grammar of `specs/Grammar.antt`,
//! or where they stop to be a prefix of any program, or the first token that nests too deep. The crate stands on
//! `source_lexer` and `source_tree`; the stages of the compiler stand on it. Its tests are in `language_tests`.
#![tactic(auto)]

mod declaration;
mod expression;
mod fault;
mod laws;
mod program;
mod reader;
mod statement;

pub use fault::ParseFault;
pub use laws::{deep_is_the_first_over_a_limit, one_answer_fits};
pub use program::parse;
