// PRMD: privilege and interrupt enable as they were before the exception.
ghost use Rattle.std.specs.Prelude.{◌≡◌};
ghost use Rattle.csr.specs.Mode.{prmd, with_prmd};

use crate::words::flag;
use pages::Privilege;

#[derive(Clone, Copy, PartialEq, Eq, Debug)]
pub struct PreviousMode {
    pub pplv: Privilege,
    pub pie: bool,
}

impl PreviousMode {
    pub fn prmd(&self) -> u32
        ensures { result ≡ prmd self.now }
    {
        self.pplv.number() | u32::from(self.pie) << 2
    }

    pub fn set_prmd(&mut self, word: u32)
        ensures { self.new ≡ with_prmd self.old word }
    {
        self.pplv = self.pplv.written(word % 4);
        self.pie = flag(word, 2);
    }
}
