//! A device that is none of the parts, as a maker would write one, and tests over whole boards.
#![tactic(auto)]

pub mod latch;

pub use latch::Latch;

#[cfg(test)]
mod tests;
