//! The residue machine: control over the channels of a rack.
//!
//! In come an object, a rack that was just made from its data words, a decoder and the numbers of the input; out go one
//! instruction after another, or a run of them with its prints. Control sees the channels as columns alone, and goes on with
//! the integer that the decoder finds. The crate stands on `micro_plan`, `shown_run`, `fault_run`, `channel_scheduler` and
//! `redundant_decoder`; the debugger and the top call stand on it.
#![tactic(auto)]

mod channels;
mod ending;
mod following;
mod instructions;
mod interval;
mod machine;
mod outcome;
mod performing;
mod position;
mod repeating;

pub use ending::{Ending, Stepped};
pub use machine::Machine;
