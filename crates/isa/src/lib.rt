//! The instruction set: register numbers, the instructions with all their fields, and how a word is read as one.
#![tactic(auto)]

pub mod decoder;
pub mod field;
pub mod instruction;
pub mod least_register;
pub mod privilege;
pub mod register;
mod word_fields;

pub use decoder::decode;
pub use field::Field;
pub use instruction::{
    BranchOp, CounterHalf, ImmediateOp, Instruction, LoadOp, RegisterOp, ShiftOp, StoreOp, TlbOp,
    UpperOp,
};
pub use least_register::RegFrom;
pub use privilege::is_hit;
pub use register::Reg;
