//! The translation of sources to objects of the machine: instructions and data words.
//!
//! In comes a source whose names and ranges keep the rules, with a set; out goes its object, or the first refusal. Each
//! declared integer has a data word, each expression is computed in registers by its depth, and jumps name places. The
//! translation is a definition on trees, in `specs/`: a line for each kind of expression, statement and comparison. The crate
//! stands on the tree and its scope, on the intervals of `range_inference`, by which tests are left out, and on the
//! instructions of `machine_table`. Its worked rows are laws, `proofs/Rows*.antt`.
#![tactic(auto)]

mod laws;

pub use laws::{code_lengths_stand, jumps_stay_within};
