//! Worked rows of the machine: tests of `micro_plan` and `object_bytes`.
//!
//! A crate with tests is proved twice, so those of the machine stand here, above its crates. Nothing comes in or goes out.
#![tactic(auto)]

#[cfg(test)]
mod objects;
#[cfg(test)]
mod plans;
