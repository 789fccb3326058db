//! The commands on sets of moduli: `set`, `encode` and `decode`.
//!
//! In comes what the words said and a sink, out go lines and a status. None of them takes memory or reads a file.
//! The crate stands on `moduli_sets`, `redundant_decoder` and `job_endings`; the top call is above it. Its tests stand in
//! `command_tests`.
#![tactic(auto)]

mod sets;
mod verdicts;

pub use sets::{describe, encode};
pub use verdicts::decode;
