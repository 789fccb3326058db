//! What an instruction asks of the channels: micro-operations, places to be shown, and how control goes on by what it is
//! told; and the plans of scaling and division, one operation after another.
//!
//! In come instructions and the integers that are told; out go micro-operations. The crate stands on `machine_table` and on
//! the operations of `channel_alu`; the machine stands on it.
#![tactic(auto)]

mod laws;
mod next;
mod plan;
mod plan_division;
mod plan_laws;
mod plan_scaling;

pub use laws::{
    acts_can_be_performed, acts_follow_the_integer_machine, no_division_is_cut,
    runs_follow_the_integer_machine,
};
pub use next::Next;
pub use plan::Plan;
pub use plan_laws::plans_end;
