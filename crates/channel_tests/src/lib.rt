//! Worked rows of the channels: tests of `channel_alu`, `fault_book`, `channel_lane`, `lane_bank`
//! and `channel_scheduler`.
//!
//! A crate with tests is proved twice, so those of the channels stand here, above them. Nothing comes in or goes out.
#![tactic(auto)]

#[cfg(test)]
mod banks;
#[cfg(test)]
mod channels;
#[cfg(test)]
mod faults;
#[cfg(test)]
mod racks;
#[cfg(test)]
mod schedules;
