//! The decoder of a code with redundant moduli: it corrects one wrong residue and detects two.
//!
//! A vector of residues comes in, the integer that it stands for goes out, with the channel that was wrong where
//! one was, or that no integer in range explains it. The distance law says why this can be done, for any part
//! of the moduli. Nothing here takes memory. The crate stands on `number_theory`, `moduli_sets` and `mixed_radix`;
//! the machine stands on it. Its tests stand in `residue_tests`.
#![tactic(auto)]

mod decoder;
mod distance;
mod projecting;

pub use decoder::{Decoder, Verdict, one_verdict};
pub use distance::{distance_law, nearest_is_the_only_one, places_of_difference, wrong_residues};
pub use projecting::{Projecting, product_of};
