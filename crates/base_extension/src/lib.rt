//! Base extension and scaling: residues that are not at hand, from those that are.
//!
//! In come the mixed-radix digits of a number, out goes its residue for any further modulus; in comes an integer,
//! out goes the residue of its quotient by a modulus of the set, which its residues alone don't give (Szabó and
//! Tanaka 1967). Nothing here takes memory. The crate stands on `mixed_radix`; the plans of scaling and division
//! stand on it. Its tests stand in `residue_tests`.
#![tactic(auto)]

mod extension;
mod scaling;

pub use extension::extend;
pub use scaling::scaled_residue;
