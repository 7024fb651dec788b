// A general register numbered LEAST or above, for the rows of the table in which a lower number is another row.
ghost use Rattle.std.specs.Prelude.{◌≡◌, ◌%◌, ◌<◌, ◌≤◌, max};

use crate::register::Reg;

#[derive(Clone, Copy, PartialEq, Eq, Debug)]
pub struct RegFrom<const LEAST: u32> {
    reg: Reg,
    ghost least: { LEAST ≤ reg.index },
}

impl<const LEAST: u32> RegFrom<LEAST> {
    pub fn reg(self) -> Reg
        ensures { result ≡ self.entry.reg }
    {
        self.reg
    }

    // Of a number's lowest five bits; a lower one becomes LEAST.
    pub(crate) fn of_low_bits(number: u32) -> RegFrom<LEAST>
        requires { LEAST < 32 }
        ensures { result.reg.index ≡ max LEAST (number % 32) }
    {
        RegFrom {
            reg: Reg {
                index: (number % 32).max(LEAST),
            },
        }
    }
}
