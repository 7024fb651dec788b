// A device of two bytes: an open one that holds a setting, and behind it a fixed one that tells the model.
ghost use Rattle.std.specs.Prelude.{◌≡◌, []};
ghost use Rattle.boards.specs.Latch.{latch_cells, latch_sound};

use bus::{Access, Bus, PhysAddr, Refusal, Width};

#[derive(Drop)]
pub struct Latch {
    setting: u8,
    model: u8,
}

impl Latch {
    pub fn new(model: u8) -> Latch
        ensures { latch_cells result.setting result.model ≡ latch_cells 0 model }
    {
        Latch { setting: 0, model }
    }
}

impl Bus for Latch {
    ghost byte = { λ s. latch_cells s.setting s.model };

    ghost sound = { λ s. latch_sound s.setting s.model };

    ghost layout = { λ s. [] };

    fn read(&mut self, access: Access) -> Result<u32, Refusal> {
        let width = access.check()?;
        match (access.at.0, width) {
            (0, Width::Byte) => Ok(u32::from(self.setting)),
            (1, Width::Byte) => Ok(u32::from(self.model)),
            (0, Width::Half) => Ok(u32::from(self.setting) + u32::from(self.model) * 0x100),
            (0, Width::Word) => Err(Refusal::Absent(PhysAddr(2))),
            _ => Err(Refusal::Absent(access.at)),
        }
    }

    fn write(&mut self, access: Access, value: u32) -> Result<(), Refusal> {
        let width = access.check()?;
        match (access.at.0, width) {
            (0, Width::Byte) => {
                [self.setting, ..] = value.to_le_bytes();
                Ok(())
            }
            (1, Width::Byte) | (0, Width::Half) => Err(Refusal::Fixed(PhysAddr(1))),
            (0, Width::Word) => Err(Refusal::Absent(PhysAddr(2))),
            _ => Err(Refusal::Absent(access.at)),
        }
    }
}
