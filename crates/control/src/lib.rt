//! The control registers by number, exceptions and returns, interrupts and the timer, and the TLB's instructions.
#![tactic(auto)]

mod access;
mod exceptions;
mod instructions;
pub mod number;
pub mod registers;
mod reset;
mod tlb_instructions;

pub use number::Csr;
pub use registers::Registers;
