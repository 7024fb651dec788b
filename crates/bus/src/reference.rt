// A bus that is lent is a bus.
ghost use Rattle.std.specs.Prelude.{◌∷◌};
ghost use Rattle.bus.specs.Layout.{number};

use crate::Bus;
use crate::access::Access;
use crate::refusal::Refusal;

impl<B: Bus> Bus for &mut B {
    ghost byte = { λ s. B.byte s.now };

    ghost sound = { λ s. B.sound s.now };

    ghost layout = { λ s. number s.ghost_name ∷ B.layout s.now };

    fn read(&mut self, access: Access) -> Result<u32, Refusal> {
        (**self).read(access)
    }

    fn write(&mut self, access: Access, value: u32) -> Result<(), Refusal> {
        (**self).write(access, value)
    }
}
