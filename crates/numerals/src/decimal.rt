// Numbers in decimal digits.
ghost use Rattle.std.specs.Prelude.{◌≡◌, ◌≤◌, true, false, length, MatchOption, decimal};
ghost use Rattle.std.specs.Str.{all_ascii_digits};
ghost use Rattle.numerals.specs.Decimal.{is_decimal_field, decimal_value, without_leading_zeros};

pub use itoa::Buffer;

// Of one more digit not every number would fit a word.
const MOST_DIGITS: usize = 9;

// A part of a text that is a number of one to nine digits, zeros before it allowed.
#[derive(Clone, Copy, PartialEq, Eq, Debug)]
pub struct DecimalField<'a> {
    digits: &'a [u8],
    ghost form: { is_decimal_field digits.now ≡ true },
}

fn are_digits(text: &[u8]) -> bool
    ensures { result ≡ all_ascii_digits text.now }
{
    for byte in text {
        if !byte.is_ascii_digit() {
            return false;
        }
    }
    true
}

impl<'a> DecimalField<'a> {
    pub fn new(text: &'a [u8]) -> Option<DecimalField<'a>>
        ensures { MatchOption result (is_decimal_field text.now ≡ false) (λ field. field.digits.now ≡ text.now) }
    {
        if (1..=MOST_DIGITS).contains(&text.len()) && are_digits(text) {
            Some(DecimalField { digits: text })
        } else {
            None
        }
    }

    #[tactic(auto, using(crate::proofs::Decimals::fewer_digits))]
    pub fn value(self) -> u32
        ensures value { result ≡ decimal_value self.entry.digits.now }

        // The number's digits are the field again, but for zeros before it.
        ensures written { decimal result ≡ without_leading_zeros self.entry.digits.now }
    {
        let mut number = 0u32;
        for byte in self.digits {
            number = number * 10 + u32::from(*byte - b'0');
        }
        number
    }
}

// The digits of a number, no zero before them, in a buffer.
pub fn decimal_digits(number: u32, buffer: &mut Buffer) -> &[u8]
    ensures value { result.now ≡ decimal number }
    ensures short { length result.now ≤ 10 }
    ensures form { (all_ascii_digits result.now ≡ true) × (without_leading_zeros result.now ≡ result.now) }

    // They are read as the number again.
    ensures read_back { decimal_value result.now ≡ number }
{
    buffer.format(number).as_bytes()
}
