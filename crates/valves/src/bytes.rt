// The bytes of a register that an access names.
ghost use Rattle.std.specs.Prelude.{◌≡◌, ◌+◌, ◌≤◌, ◌%◌};
ghost use Rattle.bus.specs.Width.{width_bytes};
ghost use Rattle.valves.specs.Bytes.{bytes_from, spliced, word_of};

use bus::Width;

// The number in the bytes that an access names, of which `first` is the lowest.
pub(crate) fn bytes_named(word: u32, first: u32, width: Width) -> u32
    requires { first + width_bytes width ≤ 4 }
    ensures { result ≡ bytes_from word first (width_bytes width) }
{
    // By cases, so that each shift is by a number that is known.
    let shifted = match first {
        0 => word,
        1 => word >> 8,
        2 => word >> 16,
        _ => word >> 24,
    };
    match width {
        Width::Byte => shifted % 0x100,
        Width::Half => shifted % 0x1_0000,
        Width::Word => shifted,
    }
}

// The word with those bytes replaced by the low ones of `value`.
pub(crate) fn with_bytes_named(word: u32, first: u32, width: Width, value: u32) -> u32
    requires inside { first + width_bytes width ≤ 4 }
    requires aligned { first % width_bytes width ≡ 0 }
    ensures { result ≡ word_of (spliced word first (width_bytes width) value) }
{
    let [a, b, c, d] = word.to_le_bytes();
    let [low, high, ..] = value.to_le_bytes();
    match (width, first) {
        (Width::Byte, 0) => u32::from_le_bytes([low, b, c, d]),
        (Width::Byte, 1) => u32::from_le_bytes([a, low, c, d]),
        (Width::Byte, 2) => u32::from_le_bytes([a, b, low, d]),
        (Width::Byte, _) => u32::from_le_bytes([a, b, c, low]),
        (Width::Half, 0) => u32::from_le_bytes([low, high, c, d]),
        (Width::Half, _) => u32::from_le_bytes([a, b, low, high]),
        (Width::Word, _) => value,
    }
}
