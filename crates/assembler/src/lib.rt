//! The assembler and the listing: programs as text that people write and read.
//!
//! In comes a text, out goes the `Object` that it spells, or the first rule that it breaks with its line. The other way an
//! object has one listing. The crate stands on `plain_text`, `name_table`, `moduli_sets` and `machine_table`; the commands that
//! assemble and list stand on it.
#![tactic(auto)]

mod assembling;
mod fault;
mod fields;
mod laws;
mod listing;
mod opcode;
mod program;
mod statement;
#[cfg(test)]
mod tests;
mod words;
mod writable;

pub use assembling::assemble;
pub use fault::AsmFault;
pub use laws::{
    listing_of_object_comes_back, listings_come_back, refusals_have_one_reason,
    texts_spell_one_program,
};
pub use listing::list;
