//! The plain evaluator: what a source means, computed over plain integers.
//!
//! In come a program whose intervals lie in the range of a set, an input and a limit of visits; out go the lines that the
//! program prints, and how it ended. A machine holds the integers and arrays of the declared names, the numbers of the
//! input and the visits that are left, and each of its methods does what the resolved tree means. All the memory that a run
//! takes is there before its first statement. The crate stands on `resolved_tree`.
#![tactic(auto)]

mod calls;
mod division;
mod evaluator;
mod machine;
mod places;
mod start;
mod statements;
mod steps;
mod values;

pub use evaluator::{MeanEnd, mean};
