// Sums, comparisons, bits, shifts and products.
ghost use Rattle.std.specs.Prelude.{◌≡◌, ◌*ℤ◌, bit_and, bit_or, bit_xor};
ghost use Rattle.word.specs.Word.{word_sum, word_difference, less_signed, less_unsigned, nor, shift_left, shift_right, shift_right_signed, product_signed, product_low, product_high_signed, product_high_unsigned};

pub fn add(a: u32, b: u32) -> u32
    ensures { result ≡ word_sum a b }
{
    a.wrapping_add(b)
}

pub fn subtract(a: u32, b: u32) -> u32
    ensures { result ≡ word_difference a b }
{
    a.wrapping_sub(b)
}

pub fn is_less_signed(a: u32, b: u32) -> bool
    ensures { result ≡ less_signed a b }
{
    a.cast_signed() < b.cast_signed()
}

pub fn is_less_unsigned(a: u32, b: u32) -> bool
    ensures { result ≡ less_unsigned a b }
{
    a < b
}

pub fn and(a: u32, b: u32) -> u32
    ensures { result ≡ bit_and a b }
{
    a & b
}

pub fn or(a: u32, b: u32) -> u32
    ensures { result ≡ bit_or a b }
{
    a | b
}

pub fn nor(a: u32, b: u32) -> u32
    ensures { result ≡ nor a b }
{
    !(a | b)
}

pub fn xor(a: u32, b: u32) -> u32
    ensures { result ≡ bit_xor a b }
{
    a ^ b
}

pub fn shift_left(a: u32, amount: u32) -> u32
    ensures { result ≡ shift_left a amount }
{
    a.wrapping_shl(amount)
}

pub fn shift_right(a: u32, amount: u32) -> u32
    ensures { result ≡ shift_right a amount }
{
    a.wrapping_shr(amount)
}

pub fn shift_right_signed(a: u32, amount: u32) -> u32
    ensures { result ≡ shift_right_signed a amount }
{
    a.cast_signed().wrapping_shr(amount).cast_unsigned()
}

fn integer_product(a: i32, b: i32) -> i64
    ensures { result ≡ a *ℤ b }
{
    i64::from(a) * i64::from(b)
}

fn product_signed(a: u32, b: u32) -> u64
    ensures { result ≡ product_signed a b }
{
    integer_product(a.cast_signed(), b.cast_signed()).cast_unsigned()
}

pub fn product_low(a: u32, b: u32) -> u32
    ensures { result ≡ product_low a b }
{
    (product_signed(a, b) % 0x1_0000_0000) as u32
}

pub fn product_high_signed(a: u32, b: u32) -> u32
    ensures { result ≡ product_high_signed a b }
{
    (product_signed(a, b) >> 32) as u32
}

pub fn product_high_unsigned(a: u32, b: u32) -> u32
    ensures { result ≡ product_high_unsigned a b }
{
    ((u64::from(a) * u64::from(b)) >> 32) as u32
}
