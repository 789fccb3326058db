//! A lane: all that one channel holds, and what it makes of an operation.
//!
//! A lane has registers, scratch places, data words, and a count of its answers. In comes a micro-operation
//! with the book of faults, out goes the lane's answer, and the lane is then as the operation leaves it. No
//! other lane occurs here. The crate stands on `channel_alu` and `fault_book`; `lane_bank` puts lanes of
//! unlike channels side by side. Its tests are in `channel_tests`.
#![tactic(auto)]

mod lane;
mod laws;

pub use lane::Lane;
pub use laws::{law_of_meanings, laws_of_lanes};
