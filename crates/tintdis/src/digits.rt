// Hexadecimal digits, of either case.
ghost use Rattle.std.specs.Prelude.{◌≡◌};
ghost use Rattle.tintdis.specs.Digits.{word_of};

// The word that eight digits write.
#[tactic(auto, using(crate::proofs::Reading::fewer_digits))]
pub(crate) fn word_of(line: &[u8]) -> Option<u32>
    ensures { result ≡ word_of line.now }
{
    if line.len() != 8 {
        return None;
    }
    let mut word = 0u32;
    for byte in line {
        word = word * 16 + char::from(*byte).to_digit(16)?;
    }
    Some(word)
}
