// Little-endian numbers in lent memory.
ghost use Rattle.std.specs.Prelude.{◌≡◌, ℕ, ◌+◌, ◌-◌, ◌≤◌, length, if◌then◌else◌, slice_index};
ghost use Rattle.bus.specs.Memory.{within, byte_of};
ghost use Rattle.bus.specs.Width.{width_bytes};
ghost use Rattle.parts.specs.Bytes.{number_at};

use bus::Width;

// The number in the bytes from `at` on, the lowest first.
pub(crate) fn load(memory: &[u8], at: usize, width: Width) -> u32
    requires { at + width_bytes width ≤ length memory.now }
    ensures { result ≡ number_at memory.now at (width_bytes width) }
{
    match width {
        Width::Byte => u32::from(memory[at]),
        Width::Half => u32::from(u16::from_le_bytes([memory[at], memory[at + 1]])),
        Width::Word => u32::from_le_bytes([
            memory[at],
            memory[at + 1],
            memory[at + 2],
            memory[at + 3],
        ]),
    }
}

// Writes the low bytes of `value` into the bytes from `at` on, and touches no other.
pub(crate) fn store(memory: &mut [u8], at: usize, width: Width, value: u32)
    requires { at + width_bytes width ≤ length memory.old }
    ensures { (k : ℕ) → slice_index memory.new k ≡ (if within at (width_bytes width) k then byte_of value (k - at) else slice_index memory.old k) }
{
    let [first, second, third, fourth] = value.to_le_bytes();
    match width {
        Width::Byte => memory[at] = first,
        Width::Half => {
            memory[at] = first;
            memory[at + 1] = second;
        }
        Width::Word => {
            memory[at] = first;
            memory[at + 1] = second;
            memory[at + 2] = third;
            memory[at + 3] = fourth;
        }
    }
}
