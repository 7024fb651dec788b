// Why a bus call, or the making of a board, is refused.
ghost use Rattle.std.specs.Prelude.{◌≡◌, Some};
ghost use Rattle.bus.specs.Refusals.{refusal_number, refusal_address, board_refusal_number};
ghost use Rattle.bus.specs.Text.{refusal_text, board_refusal_text};

use crate::address::PhysAddr;
use std::error::Error;
use std::fmt;

// Why the bus did nothing.
#[derive(Clone, Copy, PartialEq, Eq, Debug)]
pub enum Refusal {
    // The width is not 1, 2 or 4, or the address is no multiple of it.
    Misaligned,
    // The lowest named byte that is absent.
    Absent(PhysAddr),
    // The lowest named byte that cannot be written.
    Fixed(PhysAddr),
}

impl Refusal {
    pub fn number(self) -> u32
        ensures { result ≡ refusal_number self }
    {
        match self {
            Refusal::Misaligned => 7,
            Refusal::Absent(_) => 8,
            Refusal::Fixed(_) => 9,
        }
    }

    pub fn address(self) -> Option<PhysAddr>
        ensures { result ≡ refusal_address self }
    {
        match self {
            Refusal::Misaligned => None,
            Refusal::Absent(at) | Refusal::Fixed(at) => Some(at),
        }
    }
}

impl fmt::Display for Refusal {
    ghost output = { λ e. Some (refusal_text e) };

    fn fmt<W: fmt::Write>(&self, f: &mut fmt::Formatter<W>) -> fmt::Result {
        let number = self.number();
        match self.address() {
            Some(at) => write!(f, "refused {number} at {at}"),
            None => write!(f, "refused {number}"),
        }
    }
}

impl Error for Refusal {}

// Why a board cannot be built of the numbers given.
#[derive(Clone, Copy, PartialEq, Eq, Debug)]
pub enum BoardRefusal {
    // A base, length or border is no multiple of 4, or the length is 0.
    Uneven = 1,
    // The range would pass the last address.
    PastEnd = 2,
}

impl BoardRefusal {
    pub fn number(self) -> u32
        ensures { result ≡ board_refusal_number self }
    {
        self as u32
    }
}

impl fmt::Display for BoardRefusal {
    ghost output = { λ e. Some (board_refusal_text e) };

    fn fmt<W: fmt::Write>(&self, f: &mut fmt::Formatter<W>) -> fmt::Result {
        write!(f, "refused {}", self.number())
    }
}

impl Error for BoardRefusal {}
