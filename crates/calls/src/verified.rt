// A write that is read back.
ghost use Rattle.std.specs.Prelude.{◌≡◌, ◌%◌, ◌^◌};
ghost use Rattle.bus.specs.Memory.{write_of, answer_of, memory_after};
ghost use Rattle.calls.specs.Calls.{read_back};

use bus::{Access, Bus, Refusal};

// Writes, and reads the same bytes: the low bytes of `value` come back, unless the write is refused.
pub fn write_verified<B: Bus>(bus: &mut B, access: Access, value: u32) -> Result<u32, Refusal>
    ensures value { result ≡ read_back (answer_of (write_of (B.byte bus.old) access.at.0 access.width value)) (value % 256 ^ access.width) }
    ensures after { B.byte bus.new ≡ memory_after (B.byte bus.old) (write_of (B.byte bus.old) access.at.0 access.width value) }
    ensures kept { B.layout bus.new ≡ B.layout bus.old }
{
    bus.write(access, value)?;
    bus.read(access)
}
