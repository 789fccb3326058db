//! Sets of moduli, and integers as lists of residues.
//!
//! A set has information moduli, whose residues tell an integer in range, and redundant moduli, by which
//! wrong residues are found. In come the names of sets and integers in range, out go moduli, inverses and
//! vectors of residues. The crate stands on `number_theory`; every crate of the machine stands on it. Its tests stand in
//! `residue_tests`.
#![tactic(auto)]

mod counts;
mod digits;
mod kind;
mod moduli;
mod set_name;
mod vector;

pub use counts::Counts;
pub use digits::Digits;
pub use kind::Kind;
pub use moduli::{Moduli, residue_of};
pub use set_name::SetName;
pub use vector::Vector;
