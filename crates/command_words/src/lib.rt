//! The words of a command line, as the job that they ask for.
//!
//! Words come in, a job or none goes out. A job holds what the words say: sets, integers, vectors, and files
//! by the part of a word that names them. Nothing here takes memory. The crate stands on `word_readers`; the top
//! call takes its jobs from here. Its worked rows stand in `proofs/Rows.antt`; its code is tested in `command_tests`,
//! through the top call.
#![tactic(auto)]

mod job;
mod words;

pub use job::Job;
pub use word_readers::{FileWord, name_of};
pub use words::job_of;
