//! Racks: the channels of a machine as control sees them.
//!
//! In go micro-operations, each issued to every channel; out come the columns of those that show a place. The trait says
//! what a rack means, whatever the order in which its channels perform what was issued: its book of faults, and its
//! lanes as they are once all of that is performed. `Lockstep` performs each operation at once, over any bank. `Scheduled`
//! has a queue for each channel: control issues and channels perform by the turns of a schedule, and then by rounds of
//! all, so that control runs ahead of the channels until a Show waits or a queue is full. It can keep a journal of what
//! was performed, which is that of the turns alone. The crate stands on `lane_bank` and on the schedules of `fault_book`;
//! the machine stands on it. Its tests are in `channel_tests`.
#![tactic(auto)]

mod channels;
mod entry;
mod journal;
mod laws;
mod lockstep;
mod queues;
mod rack;
mod scheduled;

pub use entry::Entry;
pub use laws::{law_of_journals, moments_of_runs, turns_end};
pub use lockstep::Lockstep;
pub use rack::Rack;
pub use scheduled::Scheduled;
