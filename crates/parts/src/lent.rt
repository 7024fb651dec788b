// Reads and writes of memory that lies behind a base.
ghost use Rattle.std.specs.Prelude.{◌≡◌, length};
ghost use Rattle.bus.specs.Memory.{read_of, write_of, answer_of, memory_after};
ghost use Rattle.parts.specs.Parts.{bank_cells, hidden_bytes};

use crate::bytes::{load, store};
use bus::{Access, PhysAddr, Reach, Refusal, Span};

// What a part over that memory reaches.
pub(crate) fn reach(base: PhysAddr, memory: &[u8]) -> Reach
    ensures base { result.base ≡ base }
    ensures length { result.length ≡ length memory.now }
{
    Reach::new(Span::new(base, memory.len() as u64))
}

pub(crate) fn read(reach: &Reach, memory: &[u8], access: Access) -> Result<u32, Refusal>
    requires { reach.now.length ≡ length memory.now }
    ensures { result ≡ read_of (bank_cells reach.now.base.0 memory.now) access.at.0 access.width }
{
    let width = access.check()?;
    let offset = reach
        .offset_of(access.at)
        .ok_or(Refusal::Absent(access.at))?;
    Ok(load(memory, offset as usize, width))
}

pub(crate) fn write(
    reach: &Reach,
    memory: &mut [u8],
    access: Access,
    value: u32,
) -> Result<(), Refusal>
    requires { reach.now.length ≡ length memory.old }
    ensures value { result ≡ answer_of (write_of (bank_cells reach.now.base.0 memory.old) access.at.0 access.width value) }
    ensures after { bank_cells reach.now.base.0 memory.new ≡ memory_after (bank_cells reach.now.base.0 memory.old) (write_of (bank_cells reach.now.base.0 memory.old) access.at.0 access.width value) }
    ensures hidden { hidden_bytes reach.now.base.0 memory.new ≡ hidden_bytes reach.now.base.0 memory.old }
{
    let width = access.check()?;
    let offset = reach
        .offset_of(access.at)
        .ok_or(Refusal::Absent(access.at))?;
    store(memory, offset as usize, width, value);
    Ok(())
}
