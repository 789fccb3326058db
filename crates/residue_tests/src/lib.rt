//! Tests of the residues floor: of the public calls of `moduli_sets`, `mixed_radix`, `base_extension`,
//! `redundant_decoder` and `syndrome_table`.
//!
//! A crate with tests is proved twice, so those of the floor stand here, above it. Nothing comes in or goes out. What
//! the calls answer is proved in their crates, and worked rows of the definitions are laws there (`proofs/Rows.antt`):
//! a test shows that each call returns what the rows say.
#![tactic(auto)]

#[cfg(test)]
mod digits;
#[cfg(test)]
mod extension;
#[cfg(test)]
mod sets;
#[cfg(test)]
mod syndromes;
#[cfg(test)]
mod verdicts;
