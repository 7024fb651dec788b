//! A dispenser's valve block, as a paint maker writes a device: a bus of its own, with its own proof.
#![tactic(auto)]

mod bytes;
pub mod valves;

pub use valves::{BYTES, Pour, Valves};
