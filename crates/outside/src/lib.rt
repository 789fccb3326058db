//! The outside: files by name, and a sink for what is printed.
//!
//! A shelf is asked for files and a sink takes pieces of bytes; each counts its faults, and where it keeps all
//! in memory it tells its contents to contracts. The forms in memory serve tests and theorems, `FileShelf` and
//! `OutSink` are the real ones. The crate stands on `plain_text` for look-up by name. Its tests stand beside the code,
//! in the same files.
#![tactic(auto)]

mod file_shelf;
mod memory_shelf;
mod memory_sink;
mod out_sink;
mod shelf;
mod sink;

pub use file_shelf::FileShelf;
pub use memory_shelf::MemoryShelf;
pub use memory_sink::MemorySink;
pub use out_sink::OutSink;
pub use shelf::{Fetch, Shelf};
pub use sink::{Put, Sink};
