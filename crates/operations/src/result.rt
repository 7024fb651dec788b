// Results of arithmetic, and whether a branch is taken.
ghost use Rattle.std.specs.Prelude.{◌≡◌};
ghost use Rattle.operations.specs.Operations.{register_result, shift_result, immediate_result, upper_result, taken};

use isa::{BranchOp, Field, ImmediateOp, RegisterOp, ShiftOp, UpperOp};
use word::{
    add, and, is_less_signed, is_less_unsigned, nor, or, product_high_signed,
    product_high_unsigned, product_low, quotient_signed, quotient_unsigned, remainder_signed,
    remainder_unsigned, shift_left, shift_right, shift_right_signed, sign_extend, subtract,
    upper_20, xor, zero_extend,
};

pub fn register_result(op: RegisterOp, rj: u32, rk: u32) -> u32
    ensures { result ≡ register_result op rj rk }
{
    match op {
        RegisterOp::AddW => add(rj, rk),
        RegisterOp::SubW => subtract(rj, rk),
        RegisterOp::Slt => u32::from(is_less_signed(rj, rk)),
        RegisterOp::Sltu => u32::from(is_less_unsigned(rj, rk)),
        RegisterOp::Nor => nor(rj, rk),
        RegisterOp::And => and(rj, rk),
        RegisterOp::Or => or(rj, rk),
        RegisterOp::Xor => xor(rj, rk),
        RegisterOp::SllW => shift_left(rj, rk),
        RegisterOp::SrlW => shift_right(rj, rk),
        RegisterOp::SraW => shift_right_signed(rj, rk),
        RegisterOp::MulW => product_low(rj, rk),
        RegisterOp::MulhW => product_high_signed(rj, rk),
        RegisterOp::MulhWu => product_high_unsigned(rj, rk),
        RegisterOp::DivW => quotient_signed(rj, rk),
        RegisterOp::ModW => remainder_signed(rj, rk),
        RegisterOp::DivWu => quotient_unsigned(rj, rk),
        RegisterOp::ModWu => remainder_unsigned(rj, rk),
    }
}

pub fn shift_result(op: ShiftOp, rj: u32, ui5: Field<5>) -> u32
    ensures { result ≡ shift_result op rj ui5 }
{
    let amount = ui5.value();
    match op {
        ShiftOp::SlliW => shift_left(rj, amount),
        ShiftOp::SrliW => shift_right(rj, amount),
        ShiftOp::SraiW => shift_right_signed(rj, amount),
    }
}

pub fn immediate_result(op: ImmediateOp, rj: u32, imm12: Field<12>) -> u32
    ensures { result ≡ immediate_result op rj imm12 }
{
    let value = imm12.value();
    match op {
        ImmediateOp::Slti => u32::from(is_less_signed(rj, sign_extend::<12>(value))),
        ImmediateOp::Sltui => u32::from(is_less_unsigned(rj, sign_extend::<12>(value))),
        ImmediateOp::AddiW => add(rj, sign_extend::<12>(value)),
        ImmediateOp::Andi => and(rj, zero_extend::<12>(value)),
        ImmediateOp::Ori => or(rj, zero_extend::<12>(value)),
        ImmediateOp::Xori => xor(rj, zero_extend::<12>(value)),
    }
}

pub fn upper_result(op: UpperOp, pc: u32, si20: Field<20>) -> u32
    ensures { result ≡ upper_result op pc si20 }
{
    let value = upper_20(si20.value());
    match op {
        UpperOp::Lu12iW => value,
        UpperOp::Pcaddu12i => add(pc, value),
    }
}

pub fn is_taken(op: BranchOp, rj: u32, rd: u32) -> bool
    ensures { result ≡ taken op rj rd }
{
    match op {
        BranchOp::Beq => rj == rd,
        BranchOp::Bne => rj != rd,
        BranchOp::Blt => is_less_signed(rj, rd),
        BranchOp::Bge => !is_less_signed(rj, rd),
        BranchOp::Bltu => is_less_unsigned(rj, rd),
        BranchOp::Bgeu => !is_less_unsigned(rj, rd),
    }
}
