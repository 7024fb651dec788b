//! Layers over any bus.
#![tactic(auto)]

// Reads and writes are `inline(always)`: that took 34 to 64 of the host's instructions off a step under a shift and a split.

pub mod lock;
pub mod shift;
pub mod split;

pub use lock::Lock;
pub use shift::Shift;
pub use split::Split;
