//! How a program's address becomes one of the bus: as it is, through a window, or through the TLB.
#![tactic(auto)]

mod by_mode;
mod page;
mod window;

pub use by_mode::{direct, translate};

#[cfg(test)]
mod tests;
