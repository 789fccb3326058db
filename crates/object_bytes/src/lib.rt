//! Objects as bytes: the file format of programs, read and written.
//!
//! In come bytes; out goes the `Object` that they spell, or the first fault with its place. The other way an object has
//! one spelling. The crate stands on `machine_table`; the commands that load and keep programs stand on it. Its tests are in
//! `machine_tests`.
#![tactic(auto)]

mod bytes;
mod fault;
mod fields;
mod header;
mod laws;
mod layout;
mod reading;
mod record;
mod writing;

pub use fault::LoadFault;
pub use laws::spelled_and_loaded;
pub use reading::read;
pub use writing::write;
