// Words as text.
ghost use Rattle.std.specs.Prelude.{◌≡◌, Some};
ghost use Rattle.isa.specs.Decoding.{decode_of};
ghost use Rattle.assembly.specs.Disassembly.{Disassembled, disassembly_text};

use crate::line::Line;
use isa::{Instruction, decode};
use std::fmt;

// An instruction, or an undefined word, to be shown.
#[derive(Clone, Copy, PartialEq, Eq, Debug)]
pub struct Disassembly {
    pub instruction: Option<Instruction>,
}

impl fmt::Display for Disassembly {
    ghost output = { λ d. Some (disassembly_text d.instruction) };

    fn fmt<W: fmt::Write>(&self, f: &mut fmt::Formatter<W>) -> fmt::Result {
        match self.instruction {
            Some(instruction) => write!(f, "{}", Line::from(instruction)),
            None => write!(f, "undefined"),
        }
    }
}

pub fn disassemble(word: u32) -> Disassembly
    ensures by_table { Disassembled word (disassembly_text result.instruction) }
    ensures value { result.instruction ≡ decode_of word }
{
    Disassembly {
        instruction: decode(word),
    }
}
