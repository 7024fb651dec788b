// A direct mapping window: DMW0 and DMW1.
ghost use Rattle.std.specs.Prelude.{◌≡◌};
ghost use Rattle.csr.specs.Window.{dmw, dmw_of};

use crate::words::flag;
use pages::{AccessType, Bits};

// Each maps 512 MiB: addresses whose bits 31 to 29 are VSEG, to those whose bits 31 to 29 are PSEG.
#[derive(Clone, Copy, PartialEq, Eq, Debug)]
pub struct Window {
    pub plv0: bool,
    pub plv3: bool,
    pub mat: AccessType,
    pub pseg: Bits<3>,
    pub vseg: Bits<3>,
}

#[derive(Clone, Copy, PartialEq, Eq, Debug)]
pub struct Windows {
    pub dmw0: Window,
    pub dmw1: Window,
}

impl Window {
    pub fn dmw(&self) -> u32
        ensures { result ≡ dmw self.now }
    {
        u32::from(self.plv0)
            | u32::from(self.plv3) << 3
            | self.mat.value() << 4
            | self.pseg.value() << 25
            | self.vseg.value() << 29
    }

    pub fn of_dmw(word: u32) -> Window
        ensures { result ≡ dmw_of word }
    {
        Window {
            plv0: flag(word, 0),
            plv3: flag(word, 3),
            mat: Bits::of_low_bits(word >> 4),
            pseg: Bits::of_low_bits(word >> 25),
            vseg: Bits::of_low_bits(word >> 29),
        }
    }
}
