//! Intervals of expressions: where the values of each node lie, told from the declared ranges alone.
//!
//! In comes a checked program and the name of a set; out goes the program with the interval of each node, or the line of
//! the first thing that is too wide for the range of the set. The crate stands on `name_check` and `moduli_sets`; the
//! evaluator and the selector stand on it. Three functions have laws as their contracts: what an interval says holds in
//! every evaluation.
#![tactic(auto)]

mod bound;
mod declarations;
mod demand;
mod expressions;
mod fault;
mod inference;
mod interval;
mod laws;
mod operators;
mod ranges;
mod statements;

pub use fault::RangeFault;
pub use inference::{Ranged, infer};
pub use interval::Interval;
pub use laws::{intervals_hold, tests_pass, values_within_bound};
