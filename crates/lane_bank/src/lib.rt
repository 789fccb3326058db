//! Banks of unlike channels.
//!
//! A bank is a lane for each channel of a set, each of its own channel type. In come micro-operations, out go
//! the lanes' answers, one at a time: lane i performs by itself, and no other lane changes. The banks of the three
//! sets stand here too, and the bank of a set that is known only at run time. The crate stands on `channel_lane`; its tests are in `channel_tests`.
#![tactic(auto)]

mod any;
mod bank;
mod banks;
mod column;
mod laws;
mod set_banks;

pub use any::AnyBank;
pub use bank::Bank;
pub use banks::{Cons, Nil};
pub use channel_lane::Lane;
pub use column::{issue_to_all, perform_in_all, stored_in_all};
pub use laws::{lanes_in_parts, lanes_of_new_banks, lanes_of_runs};
pub use set_banks::{DeskBank, HallBank, PocketBank, banks_fit_their_sets};
