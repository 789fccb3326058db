//! The decoder by a table of syndromes: the verdicts of projection, by a look-up in place of a trial of each channel.
//!
//! A set comes in, and memory for its table; then vectors of residues, and their verdicts go out. The information
//! residues of a vector tell an integer. What the redundant residues are off that integer is a triple, and no two wrong
//! residues have the same one: so it names the channel that is wrong, and how far the integer is from the right one. The
//! table is sorted once, and searched by halves. The crate stands on `redundant_decoder`, whose trait it meets. Its tests
//! stand in `residue_tests`.
#![tactic(auto)]

mod build;
mod laws;
mod pass;
mod steps;
mod stride;
mod syndromes;
mod table;
mod triple;

pub use laws::syndromes_tell_apart;
pub use steps::Steps;
pub use syndromes::Syndromes;
