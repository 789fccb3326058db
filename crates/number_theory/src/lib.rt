//! Laws of residues, of coprime numbers and of products of integers.
//!
//! Nothing comes in and nothing goes out: each function's contract is one law over all numbers, and its
//! body is empty. The crate stands on std alone; whoever computes with residues stands on it. There is no code to test:
//! worked rows of its definitions are laws of `moduli_sets` and `source_tree`.
#![tactic(auto)]

mod coprime;
mod division;
mod intervals;
mod residues;

pub use coprime::{
    coprime_factor_divides_other, equal_residues_make_equal, inverse_is_the_only_one,
    one_number_has_the_residues, pairwise_coprime_product_divides,
};
pub use division::floor_quotient_and_rest;
pub use intervals::product_between;
pub use residues::{
    quotient_and_residue, residue_of_difference, residue_of_negation, residue_of_product,
    residue_of_quotient, residue_of_residue, residue_of_sum,
};
