//! What each instruction gives, by its mnemonic: arithmetic, whether a branch is taken, what a load leaves, how wide accesses are.
#![tactic(auto)]

pub mod access;
pub mod result;
#[cfg(test)]
mod tests;

pub use access::{load_result, load_width, store_width};
pub use result::{immediate_result, is_taken, register_result, shift_result, upper_result};
