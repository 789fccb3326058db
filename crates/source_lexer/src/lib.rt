//! Tokens of source texts.
//!
//! In comes a source text as bytes, out go its tokens in order, each the longest that begins at its place, or
//! the first byte or number that is no token. The crate stands on `plain_text`; the parser stands on it. Its tests
//! are in `language_tests`.
#![tactic(auto)]

mod gap;
mod lexer;
mod symbol;
mod token;
mod word;

pub use lexer::{LexFault, one_scan, tokens};
pub use token::{Token, TokenKind};
