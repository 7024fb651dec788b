// The general registers.
ghost use Rattle.std.specs.Prelude.{◌≡◌};
ghost use Rattle.actions.specs.Registers.{reset_general, gr, with_gr, return_register};

use isa::Reg;
use std::marker::Model;

#[derive(PartialEq, Eq, Debug, Drop)]
pub struct GeneralRegisters {
    values: [u32; 32],
}

// A clause sees the list of their values. That of r0 is 0.
impl Model for GeneralRegisters {
    ghost use Rattle.std.specs.Prelude.{◌≡◌, ℕ, List, slice_index_or};

    ghost Value = { List ℕ };

    ghost view = { λ registers. registers.values };

    ghost invariant = { λ registers. slice_index_or registers.values 0 0 ≡ 0 };

    ghost inverse = { λ list. record { values = list } };
}

// r1, in which BL puts the address of the next instruction.
pub(crate) fn return_register() -> Reg
    ensures { result ≡ return_register }
{
    Reg::of_low_bits(1)
}

impl GeneralRegisters {
    // As reset leaves them.
    pub fn new() -> GeneralRegisters
        ensures { result ≡ reset_general }
    {
        GeneralRegisters { values: [0; 32] }
    }

    pub fn read(&self, register: Reg) -> u32
        ensures value { result ≡ gr self.now register }
        ensures zero { register.index ≡ 0 → result ≡ 0 }
    {
        self.values[register.index()]
    }

    // A write of r0 is lost.
    pub fn write(&mut self, register: Reg, value: u32)
        ensures { self.new ≡ with_gr self.old register value }
    {
        if register.index() != 0 {
            self.values[register.index()] = value;
        }
    }
}
