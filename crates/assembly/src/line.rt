// A line of assembly: a mnemonic and up to three operands.
use isa::{Field, Reg};

#[derive(Clone, Copy, PartialEq, Eq, Debug)]
pub enum Operand {
    Gpr(Reg),
    Signed(i32),
    Unsigned(u32),
    Csr(Field<14>),
}

#[derive(Clone, Copy, PartialEq, Eq, Debug)]
pub enum Operands {
    None,
    One(Operand),
    Two(Operand, Operand),
    Three(Operand, Operand, Operand),
}

#[derive(Clone, Copy, PartialEq, Eq, Debug)]
pub struct Line {
    pub mnemonic: &'static str,
    pub operands: Operands,
}
