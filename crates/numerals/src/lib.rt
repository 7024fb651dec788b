//! Numbers as they are written in a text: a word in eight hexadecimal digits, and a number in decimal ones.
#![tactic(auto)]

pub mod decimal;
pub mod hexadecimal;

pub use decimal::{Buffer, DecimalField, decimal_digits};
pub use hexadecimal::{HexField, hex_digits};
