//! What happens to channels from outside, as texts say it: which of their answers are wrong, and when they have their turns.
//!
//! A fault is an answer of a channel, told by its number, and the value that stands in its place. In come entries or a text
//! of them, out goes a book that gives the value for an answer, where there is one; the lanes ask it at each answer. A
//! schedule is a list of turns of control and of channels; in comes a text of them, and the racks with queues go by it. The
//! crate stands on `number_theory` for the distance of columns, on `plain_text` and on the channels of a set from
//! `moduli_sets`. Its tests are in `channel_tests`.
#![tactic(auto)]

mod faults;
mod laws;
mod line;
mod reading;
mod schedule;

pub use faults::Faults;
pub use laws::{laws_of_faults, schedules_have_one_reading};
pub use reading::BookFault;
pub use schedule::{Schedule, ScheduleFault, Turn};
