//! The arithmetic of one residue channel, and the operations that every channel performs.
//!
//! A channel computes with residues of one modulus and knows nothing of the other channels. In come
//! residues below the modulus, out goes the residue of what was computed. There are four kinds, which
//! differ in the way in which a sum or a product is brought back below the modulus: by division, by
//! adding the carry, by dropping it, by subtracting it. `AnyChannel` is one of them, by a modulus that is known only at
//! run time. The crate stands on `number_theory` alone; its tests are in `channel_tests`.
#![tactic(auto)]

mod any;
mod bits;
mod channel;
mod ones;
mod operation;
mod plain;
mod plus;
mod power;

pub use any::AnyChannel;
pub use channel::{Channel, FixedChannel};
pub use ones::Ones;
pub use operation::{MicroOp, Place};
pub use plain::Plain;
pub use plus::Plus;
pub use power::Power;
