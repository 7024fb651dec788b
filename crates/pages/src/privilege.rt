// The two privilege levels.
ghost use Rattle.std.specs.Prelude.{◌≡◌};
ghost use Rattle.pages.specs.Kinds.{plv, plv_written};

#[derive(Clone, Copy, PartialEq, Eq, Debug)]
pub enum Privilege {
    Plv0,
    Plv3,
}

impl Privilege {
    pub fn number(self) -> u32
        ensures { result ≡ plv self }
    {
        match self {
            Privilege::Plv0 => 0,
            Privilege::Plv3 => 3,
        }
    }

    // What a field that holds this level holds after that number was written to it.
    pub fn written(self, number: u32) -> Privilege
        ensures { result ≡ plv_written self number }
    {
        match number {
            0 => Privilege::Plv0,
            3 => Privilege::Plv3,
            _ => self,
        }
    }
}
