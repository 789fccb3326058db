//! Faulty answers of channels, and what they do to a run: nothing, where as many channels answer wrongly as are corrected;
//! and where one more does, nothing but an early end.
//!
//! Nothing comes in and nothing goes out: the crate has definitions, and laws as functions with empty bodies. It stands on
//! the traces of `shown_run`, on the nearest integers of `redundant_decoder` and on the integer machine; the machine stands
//! beside it.
#![tactic(auto)]

mod laws;

pub use laws::{
    decoders_tell, fault_runs_go_channel_by_channel, faults_cut_runs, few_faults_change_nothing,
    first_bad_column, shown_runs_are_fault_runs, unnamed_channels_stay_right,
};
