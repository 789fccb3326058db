//! The top call of the residue number computer.
//!
//! Words, a shelf of files and a sink come in; what the job prints goes to the sink, and its status comes out. The top call
//! fetches the files of the job, hands their texts to the command, and puts what is refused. A command is a function of its
//! texts and a sink, and knows neither shelf nor words. The crate takes its jobs from `command_words`; the program `rnm` is
//! `main` over this call. Its tests stand in `command_tests`.
#![tactic(auto)]

mod asm;
mod exec;
mod files;
mod laws;
mod list;
mod mean;
mod run;
mod stops;
mod top_call;

pub use job_endings::Status;
pub use laws::schedules_change_no_line;
pub use top_call::rnm;
