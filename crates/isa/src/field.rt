// A field of an instruction word: a number of N bits, neither extended nor scaled. That of B and BL, which stands in the word in two parts, is put together.
ghost use Rattle.std.specs.Prelude.{◌≡◌, ◌^◌, ◌<◌};

#[derive(Clone, Copy, PartialEq, Eq, Debug)]
pub struct Field<const N: u32> {
    pub(crate) value: u32,
    ghost fits: { value < 2 ^ N },
}

impl<const N: u32> Field<N> {
    pub fn value(self) -> u32
        ensures { result ≡ self.entry.value }
    {
        self.value
    }
}
