//! Arithmetic on 32-bit words: every operation of the integer instructions, for all operands.
#![tactic(auto)]

pub mod arithmetic;
pub mod division;
pub mod extension;

pub use arithmetic::{
    add, and, is_less_signed, is_less_unsigned, nor, or, product_high_signed,
    product_high_unsigned, product_low, shift_left, shift_right, shift_right_signed, subtract, xor,
};
pub use division::{quotient_signed, quotient_unsigned, remainder_signed, remainder_unsigned};
pub use extension::{offset, sign_extend, upper_20, zero_extend};
