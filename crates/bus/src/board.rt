// What the numbers that a board is built of have to be.
ghost use Rattle.std.specs.Prelude.{◌≡◌, Some};
ghost use Rattle.bus.specs.Board.{range_check, border_check};
ghost use Rattle.bus.specs.Text.{span_text};

use crate::address::PhysAddr;
use crate::refusal::BoardRefusal;
use std::fmt;

// How many addresses there are.
const SPACE: u64 = 0x1_0000_0000;

// `length` bytes from `base` on, where a part lies.
#[derive(Clone, Copy, PartialEq, Eq, Debug)]
pub struct Span {
    pub base: PhysAddr,
    pub length: u64,
}

impl Span {
    pub fn new(base: PhysAddr, length: u64) -> Span
        ensures base { result.base ≡ base }
        ensures length { result.length ≡ length }
    {
        Span { base, length }
    }

    // Whether a part may have it.
    pub fn check(self) -> Result<(), BoardRefusal>
        ensures { result ≡ range_check self.base.0 self.length }
    {
        if self.base.0 % 4 != 0 || self.length % 4 != 0 || self.length == 0 {
            Err(BoardRefusal::Uneven)
        } else if self.length > SPACE - u64::from(self.base.0) {
            Err(BoardRefusal::PastEnd)
        } else {
            Ok(())
        }
    }
}

impl fmt::Display for Span {
    ghost output = { λ span. Some (span_text span) };

    fn fmt<W: fmt::Write>(&self, f: &mut fmt::Formatter<W>) -> fmt::Result {
        write!(f, "{} 0x{:X}", self.base, self.length)
    }
}

// Whether a split may have its border at `border`.
pub fn check_border(border: PhysAddr) -> Result<(), BoardRefusal>
    ensures { result ≡ border_check border.0 }
{
    if border.0 % 4 == 0 {
        Ok(())
    } else {
        Err(BoardRefusal::Uneven)
    }
}
