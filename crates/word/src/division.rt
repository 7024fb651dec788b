// Quotients and remainders.
ghost use Rattle.std.specs.Prelude.{◌≡◌};
ghost use Rattle.word.specs.Division.{DividesSigned, DividesUnsigned};
ghost use Rattle.word.specs.Word.{quotient_signed, remainder_signed, quotient_unsigned, remainder_unsigned};

pub fn quotient_signed(a: u32, b: u32) -> u32
    ensures value { result ≡ quotient_signed a b }
    ensures divides { DividesSigned a b result (remainder_signed a b) }
{
    if b == 0 {
        return u32::MAX;
    }
    a.cast_signed()
        .wrapping_div(b.cast_signed())
        .cast_unsigned()
}

pub fn remainder_signed(a: u32, b: u32) -> u32
    ensures value { result ≡ remainder_signed a b }
    ensures divides { DividesSigned a b (quotient_signed a b) result }
{
    if b == 0 {
        return a;
    }
    a.cast_signed()
        .wrapping_rem(b.cast_signed())
        .cast_unsigned()
}

pub fn quotient_unsigned(a: u32, b: u32) -> u32
    ensures value { result ≡ quotient_unsigned a b }
    ensures divides { DividesUnsigned a b result (remainder_unsigned a b) }
{
    a.checked_div(b).unwrap_or(u32::MAX)
}

pub fn remainder_unsigned(a: u32, b: u32) -> u32
    ensures value { result ≡ remainder_unsigned a b }
    ensures divides { DividesUnsigned a b (quotient_unsigned a b) result }
{
    a.checked_rem(b).unwrap_or(a)
}
