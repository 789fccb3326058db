//! What all readers of texts share: digits with their value up to a limit, an optional
//! minus before them, lines, and words parted by a set of bytes.
//!
//! Texts come in as bytes, which need not be UTF-8. Each reader stands beside the definition that it meets,
//! exactly in both directions. The crate stands on nothing; every reader stands on it.
#![tactic(auto)]

mod digits;
mod integers;
mod lines;
#[cfg(test)]
mod tests;
mod words;

pub use digits::{digits_len, number_up_to};
pub use integers::{integer_up_to, is_integer, unsigned_part};
pub use lines::line_feeds;
pub use words::{WHITE_SPACE, Word, next_word};
