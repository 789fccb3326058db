//! Worked rows of the commands: tests of `rnm_engine` over files and a sink in memory, and through it of
//! `thin_source`.
//!
//! A crate with tests is proved twice, so those of the top call stand here, above it. Nothing comes in or goes out.
#![tactic(auto)]

#[cfg(test)]
mod jobs;
