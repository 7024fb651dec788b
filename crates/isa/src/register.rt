// The number of a general register.
ghost use Rattle.std.specs.Prelude.{◌≡◌, ◌%◌, ◌<◌};

#[derive(Clone, Copy, PartialEq, Eq, Debug)]
pub struct Reg {
    pub(crate) index: u32,
    ghost fits: { index < 32 },
}

impl Reg {
    pub fn index(self) -> usize
        ensures within { result < 32 }
        ensures value { result ≡ self.index }
    {
        self.index as usize
    }

    // Of a number's lowest five bits.
    pub fn of_low_bits(number: u32) -> Reg
        ensures { result.index ≡ number % 32 }
    {
        Reg { index: number % 32 }
    }
}
