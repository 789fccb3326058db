//! Runs of objects: a program on the residue machine, and what is printed of it.
//!
//! In come an object, the faulty answers of channels, their turns, the numbers of the input, a limit of instructions and a
//! sink; out go the integers that are printed, the ending, how many columns were corrected in each channel, the journal where
//! it is asked for, and a status. The crate stands on `residue_machine`, over the bank of any set and the rack with queues of
//! `channel_scheduler`, on the decoder of `syndrome_table`, on the laws of faults of `fault_run`, and on `job_endings`; the
//! commands that run objects stand on it. Its tests stand in `command_tests`.
#![tactic(auto)]

mod journal;
mod laws;
mod running;

pub use laws::{machines_run_so, machines_without_faults, runs_as_integers, runs_up_to_damage};
pub use running::{RunOptions, run};
