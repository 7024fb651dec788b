// Lines of assembly as text.
ghost use Rattle.std.specs.Prelude.{◌++◌, Some};
ghost use Rattle.assembly.specs.Lines.{operand_text, operands_text};

use crate::line::{Line, Operand, Operands};
use std::fmt;

impl fmt::Display for Operand {
    ghost output = { λ o. Some (operand_text o) };

    #[tactic(auto, using(crate::proofs::Digits::hex_four))]
    fn fmt<W: fmt::Write>(&self, f: &mut fmt::Formatter<W>) -> fmt::Result {
        match *self {
            Operand::Gpr(reg) => write!(f, "r{}", reg.index()),
            Operand::Signed(value) => write!(f, "{value}"),
            Operand::Unsigned(value) => write!(f, "{value}"),
            Operand::Csr(number) => write!(f, "0x{:04X}", number.value()),
        }
    }
}

impl fmt::Display for Operands {
    ghost output = { λ o. Some (operands_text o) };

    fn fmt<W: fmt::Write>(&self, f: &mut fmt::Formatter<W>) -> fmt::Result {
        match *self {
            Operands::None => Ok(()),
            Operands::One(a) => write!(f, " {a}"),
            Operands::Two(a, b) => write!(f, " {a}, {b}"),
            Operands::Three(a, b, c) => write!(f, " {a}, {b}, {c}"),
        }
    }
}

impl fmt::Display for Line {
    ghost output = { λ l. Some (l.mnemonic.now ++ operands_text l.operands) };

    fn fmt<W: fmt::Write>(&self, f: &mut fmt::Formatter<W>) -> fmt::Result {
        write!(f, "{}{}", self.mnemonic, self.operands)
    }
}
