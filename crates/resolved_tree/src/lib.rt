//! Trees in which each name is resolved: it stands there as what it was declared as, with its number.
//!
//! In comes a checked program, out goes its resolved tree: no name is looked up by its bytes any more, and all that the
//! tree wants is there before it is run. What a resolved tree means is defined over the integers and arrays that stand at
//! numbers, and a law says that it is what the source means. The crate stands on `name_table`, `name_check` and
//! `range_inference`; the evaluator stands on it.
#![tactic(auto)]

mod declarations;
mod laws;
mod names;
mod resolver;
mod slot;
mod steps;
mod tree;
mod values;

pub use declarations::start;
pub use laws::resolved_means_the_same;
pub use resolver::resolve;
pub use slot::Slot;
pub use tree::{Argument, Procedure, Resolved, Step, Target, Test, Value};
