//! Instructions in the manual's assembly form.
#![tactic(auto)]

pub mod disassembly;
mod display;
pub mod line;
mod names;
mod of_instruction;
mod operand;

pub use disassembly::{Disassembly, disassemble};
pub use line::{Line, Operand, Operands};
