//! Numbers as text: those that an input writes, and lines with numbers in them.
//!
//! In comes the text of an input, out go its numbers, or the place of the first word that is none. In come words and
//! numbers, out goes a line that ends with LF: whoever prints numbers builds the lines here. The crate stands on
//! `plain_text` and the kit's `arrayvec` and `itoa`; only reading takes memory.
#![tactic(auto)]

mod input;
mod laws;
mod line;
#[cfg(test)]
mod tests;

pub use input::{InputFault, read_numbers};
pub use laws::one_reading;
pub use line::{Line, line_of};
