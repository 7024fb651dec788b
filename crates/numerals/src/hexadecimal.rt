// Words in eight hexadecimal digits, those above 9 in upper case.
ghost use Rattle.std.specs.Prelude.{◌≡◌, ◌<◌, true, MatchOption, false};
ghost use Rattle.std.specs.Char.{digit_value};
ghost use Rattle.std.specs.Fmt.{digit_glyph};
ghost use Rattle.numerals.specs.Hexadecimal.{is_hex_digit, all_hex_digits, is_hex_field, hex_value, hex_text};

// A part of a text that is a word in hexadecimal digits.
#[derive(Clone, Copy, PartialEq, Eq, Debug)]
pub struct HexField<'a> {
    digits: &'a [u8],
    ghost form: { is_hex_field digits.now ≡ true },
}

fn is_hex_digit(byte: u8) -> bool
    ensures { result ≡ is_hex_digit byte }
{
    byte.is_ascii_digit() || (b'A'..=b'F').contains(&byte)
}

fn are_hex_digits(text: &[u8]) -> bool
    ensures { result ≡ all_hex_digits text.now }
{
    for byte in text {
        if !is_hex_digit(*byte) {
            return false;
        }
    }
    true
}

fn digit_value(byte: u8) -> u32
    requires { is_hex_digit byte ≡ true }
    ensures value { result ≡ digit_value byte }
    ensures small { result < 16 }
{
    if byte <= b'9' {
        u32::from(byte - b'0')
    } else {
        u32::from(byte - b'A') + 10
    }
}

impl<'a> HexField<'a> {
    pub fn new(text: &'a [u8]) -> Option<HexField<'a>>
        ensures { MatchOption result (is_hex_field text.now ≡ false) (λ field. field.digits.now ≡ text.now) }
    {
        if text.len() == 8 && are_hex_digits(text) {
            Some(HexField { digits: text })
        } else {
            None
        }
    }

    #[tactic(auto, using(crate::proofs::Hexadecimals::fewer_digits))]
    pub fn value(self) -> u32
        ensures value { result ≡ hex_value self.entry.digits.now }

        // The word's digits are the field again.
        ensures written { hex_text result ≡ self.entry.digits.now }
    {
        let mut word = 0u32;
        for byte in self.digits {
            word = word * 16 + digit_value(*byte);
        }
        word
    }
}

fn hex_digit(number: u32) -> u8
    requires { number < 16 }
    ensures { result ≡ digit_glyph true number }
{
    if number < 10 {
        b'0' + number as u8
    } else {
        b'A' + (number - 10) as u8
    }
}

pub fn hex_digits(word: u32) -> [u8; 8]
    ensures value { result ≡ hex_text word }

    // They are read as the word again.
    ensures read_back { (is_hex_field result ≡ true) × (hex_value result ≡ word) }
{
    [
        hex_digit(word >> 28),
        hex_digit((word >> 24) % 16),
        hex_digit((word >> 20) % 16),
        hex_digit((word >> 16) % 16),
        hex_digit((word >> 12) % 16),
        hex_digit((word >> 8) % 16),
        hex_digit((word >> 4) % 16),
        hex_digit(word % 16),
    ]
}
