//! What a run does in the channels: traces, what is read off them, and the run that control makes by what it is shown.
//!
//! Nothing comes in and nothing goes out: the crate has definitions, and laws as functions with empty bodies. It stands on
//! `micro_plan`, on the lanes of `lane_bank` and on the nearest integers of `redundant_decoder`; `fault_run` stands on it, and
//! the machine on both.
#![tactic(auto)]

mod laws;

pub use laws::{nearest_is_nearest, plain_is_integer, runs_in_parts};
