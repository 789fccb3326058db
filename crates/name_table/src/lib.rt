//! Things by name, in the order of their declarations.
//!
//! A table is seen as the list of its names, each with its value, in which the first of a name is meant. In come names as
//! bytes, out goes the value of a name. The names of a text are numbered by their places, so that what is declared inside
//! a part of it is forgotten by the length before. The crate stands on `plain_text` for the look-up by name.
#![tactic(auto)]

mod table;

pub use table::NameTable;
