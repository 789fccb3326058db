//! How jobs end: the files that they want, their refusals, their endings, their lines and their statuses.
//!
//! A job's files are fetched in order, and its texts come out, or why there are none. A refusal is a value until it is put:
//! one line and a status, all of them in one table; so is how a run ends. What is printed at once goes into a sink line by
//! line. The crate stands on `outside`, `number_text`, `source_reader` and `machine_table` for what sources, objects and assembly
//! texts are refused for, and `word_readers` for the words that name files; it knows no command. Its tests stand in `command_tests`.
#![tactic(auto)]

mod assembly_kind;
mod ending;
mod files;
mod lines;
mod numbers;
mod object_kind;
mod refusal;
mod status;

pub use assembly_kind::AssemblyKind;
pub use ending::{Ending, corrected_line};
pub use files::{MOST_FILES, Texts, fetch_all};
pub use lines::{put_lines, put_piece};
pub use numbers::{Numbers, with_numbers};
pub use object_kind::ObjectKind;
pub use refusal::{Refusal, Stop, put_refusal};
pub use status::Status;
