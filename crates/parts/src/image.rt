// Memory that can only be read, lent by the caller.
ghost use Rattle.std.specs.Prelude.{◌≡◌, [], ◌∷◌, length};
ghost use Rattle.bus.specs.Layout.{number};
ghost use Rattle.parts.specs.Parts.{image_cells};
ghost use Rattle.parts.specs.Soundness.{image_sound};

use crate::lent;
use bus::{Access, Bus, PhysAddr, Reach, Refusal};

// The caller's memory, from a base on, fixed.
#[derive(Drop)]
pub struct Image<'a> {
    memory: &'a [u8],
    // Where the memory lies: as many bytes as it has, from the base on.
    reach: Reach,
    ghost spans: { reach.length ≡ length memory.now },
}

impl<'a> Image<'a> {
    pub fn new(base: PhysAddr, memory: &'a [u8]) -> Image<'a>
        ensures cells { image_cells result.reach.base.0 result.memory.now ≡ image_cells base.0 memory.now }
        ensures base { result.reach.base ≡ base }
        ensures memory { result.memory.now ≡ memory.now }
    {
        let reach = lent::reach(base, memory);
        Image { memory, reach }
    }
}

impl Bus for Image<'_> {
    ghost byte = { λ s. image_cells s.reach.base.0 s.memory.now };

    ghost sound = { λ s. image_sound s.reach.base.0 s.memory.now };

    ghost layout = { λ s. number s.reach.base.0 ∷ [] };

    fn read(&mut self, access: Access) -> Result<u32, Refusal> {
        lent::read(&self.reach, self.memory, access)
    }

    // A write is refused as a read is, and where a read is answered, as fixed.
    fn write(&mut self, access: Access, _value: u32) -> Result<(), Refusal> {
        lent::read(&self.reach, self.memory, access)?;
        Err(Refusal::Fixed(access.at))
    }
}
