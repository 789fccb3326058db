//! Tests of the language floor: worked rows of `source_lexer`, `source_tree`, `source_parser`,
//! `name_check` and `range_inference`.
//!
//! A crate with tests is proved twice, so those of the language stand here, above it. Nothing comes in or goes out.
#![tactic(auto)]

#[cfg(test)]
mod names;
#[cfg(test)]
mod places;
#[cfg(test)]
mod programs;
#[cfg(test)]
mod random_places;
#[cfg(test)]
mod ranges;
#[cfg(test)]
mod tokens;
#[cfg(test)]
mod trees;
