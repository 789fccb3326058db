//! Source texts as programs, or why they are refused.
//!
//! In come a source text and the name of a set; out goes the program that the text spells, with the interval of each node,
//! or its first fault with its line. The stages stand here in their order, each over the whole text: tokens, grammar, names,
//! ranges. Whoever means or compiles a source reads it here, and nothing is printed.
#![tactic(auto)]

mod fault;
mod reader;

pub use fault::{ReadFault, SourceFault, SourceKind};
pub use reader::read;
