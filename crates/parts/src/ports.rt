// A port block: a few bytes of its own.
ghost use Rattle.std.specs.Prelude.{◌≡◌, [], ◌∷◌, length};
ghost use Rattle.bus.specs.Layout.{number};
ghost use Rattle.parts.specs.Parts.{bank_cells, port_cells};
ghost use Rattle.parts.specs.Soundness.{bank_sound};

use crate::lent;
use bus::{Access, Bus, PhysAddr, Reach, Refusal};

const PORT_BYTES: usize = 64;

// 64 open bytes from a base on, first zero.
#[derive(Drop)]
pub struct Ports {
    memory: [u8; PORT_BYTES],
    // Where the memory lies: as many bytes as it has, from the base on.
    reach: Reach,
    ghost spans: { reach.length ≡ length memory },
}

impl Ports {
    pub fn new(base: PhysAddr) -> Ports
        ensures cells { bank_cells result.reach.base.0 result.memory ≡ port_cells base.0 }
        ensures base { result.reach.base ≡ base }
    {
        let memory = [0; PORT_BYTES];
        Ports {
            reach: lent::reach(base, &memory),
            memory,
        }
    }
}

impl Bus for Ports {
    ghost byte = { λ s. bank_cells s.reach.base.0 s.memory };

    ghost sound = { λ s. bank_sound s.reach.base.0 s.memory };

    ghost layout = { λ s. number s.reach.base.0 ∷ [] };

    fn read(&mut self, access: Access) -> Result<u32, Refusal> {
        lent::read(&self.reach, &self.memory, access)
    }

    fn write(&mut self, access: Access, value: u32) -> Result<(), Refusal> {
        lent::write(&self.reach, &mut self.memory, access, value)
    }
}
