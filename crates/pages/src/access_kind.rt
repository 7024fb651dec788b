// What an address is translated for.
ghost use Rattle.std.specs.Prelude.{◌≡◌};
ghost use Rattle.pages.specs.Kinds.{kind_number};

#[derive(Clone, Copy, PartialEq, Eq, Debug)]
pub enum AccessKind {
    Fetch,
    Load,
    Store,
}

impl AccessKind {
    // The number by which a refused step tells its kind.
    pub fn number(self) -> u8
        ensures { result ≡ kind_number self }
    {
        match self {
            AccessKind::Fetch => 1,
            AccessKind::Load => 2,
            AccessKind::Store => 3,
        }
    }
}
