//! A first program whose outcome is known, and the worked examples that the definitions meet.
#![tactic(auto)]

pub mod addition;

pub use addition::{Sum, add_up};

#[cfg(test)]
mod tests;
