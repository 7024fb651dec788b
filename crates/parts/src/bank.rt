// Memory that can be read and written, lent by the caller.
ghost use Rattle.std.specs.Prelude.{◌≡◌, [], ◌∷◌, length};
ghost use Rattle.bus.specs.Layout.{number, bytes};
ghost use Rattle.parts.specs.Parts.{bank_cells, hidden_bytes};
ghost use Rattle.parts.specs.Soundness.{bank_sound};

use crate::lent;
use bus::{Access, Bus, PhysAddr, Reach, Refusal};

// The caller's memory, from a base on, open.
#[derive(Drop)]
pub struct Bank<'a> {
    memory: &'a mut [u8],
    // Where the memory lies: as many bytes as it has, from the base on.
    reach: Reach,
    ghost spans: { reach.length ≡ length memory.now },
}

impl<'a> Bank<'a> {
    pub fn new(base: PhysAddr, memory: &'a mut [u8]) -> Bank<'a>
        ensures cells { bank_cells result.reach.base.0 result.memory.now ≡ bank_cells base.0 memory.old }
        ensures base { result.reach.base ≡ base }
        ensures memory { result.memory.now ≡ memory.old }
        ensures lender { result.memory.ghost_name ≡ memory.entry.ghost_name }
    {
        let reach = lent::reach(base, memory);
        Bank { memory, reach }
    }
}

impl Bus for Bank<'_> {
    ghost byte = { λ s. bank_cells s.reach.base.0 s.memory.now };

    ghost sound = { λ s. bank_sound s.reach.base.0 s.memory.now };

    ghost layout = { λ s. number s.reach.base.0 ∷ number s.memory.ghost_name ∷ bytes (hidden_bytes s.reach.base.0 s.memory.now) ∷ [] };

    fn read(&mut self, access: Access) -> Result<u32, Refusal> {
        // Lent as `&mut`, since a shared loan out of `&mut self` would leave the bytes unknown to the proof.
        lent::read(&self.reach, &mut *self.memory, access)
    }

    fn write(&mut self, access: Access, value: u32) -> Result<(), Refusal> {
        lent::write(&self.reach, self.memory, access, value)
    }
}
