//! Mixed-radix digits: the order and the sign that residues alone don't show.
//!
//! A vector of residues comes in, with a choice of channels; the digits of the number that has these residues
//! go out, and numbers, their order and their sign. Digits are found one after another, without ever forming a
//! product of moduli (Garner 1959; Szabó and Tanaka 1967). Nothing here takes memory. The crate stands on
//! `moduli_sets`; base extension and the decoder stand on it. Its tests stand in `residue_tests`.
#![tactic(auto)]

mod chosen;
mod digits;
mod order;

pub use chosen::Chosen;
pub use digits::{digits_of, digits_write_one_number, value_of};
pub use order::{compare, sign_of};
