// The two sizes of a page: 4 KiB, and 2 MiB as one half of the manual's 4 MB page.
ghost use Rattle.std.specs.Prelude.{◌≡◌};
ghost use Rattle.pages.specs.Kinds.{ps, ps_written};

#[derive(Clone, Copy, PartialEq, Eq, Debug)]
pub enum PageSize {
    Small,
    Large,
}

impl PageSize {
    // The size is 2 to this power.
    pub fn number(self) -> u32
        ensures { result ≡ ps self }
    {
        match self {
            PageSize::Small => 12,
            PageSize::Large => 21,
        }
    }

    // What a field that holds this size holds after that number was written to it.
    pub fn written(self, number: u32) -> PageSize
        ensures { result ≡ ps_written self number }
    {
        match number {
            12 => PageSize::Small,
            21 => PageSize::Large,
            _ => self,
        }
    }
}
