// What a read or a write names, and what it has to be before a bus looks at its bytes.
ghost use Rattle.std.specs.Prelude.{◌≡◌, ◌%◌, ◌==◌, Err, Some};
ghost use Rattle.bus.specs.Memory.{aligned, read_of};
ghost use Rattle.bus.specs.Width.{width_bytes, width_of, access_check};
ghost use Rattle.bus.specs.Board.{nothing};
ghost use Rattle.bus.specs.Text.{access_text};

use crate::address::PhysAddr;
use crate::refusal::Refusal;
use std::fmt;

// How many bytes an access may name.
#[derive(Clone, Copy, PartialEq, Eq, Debug)]
pub enum Width {
    Byte,
    Half,
    Word,
}

impl Width {
    // Whether the address is a multiple of it, by cases, so that no division is left for an access.
    fn divides(self, at: PhysAddr) -> bool
        ensures { result ≡ (at.0 % width_bytes self == 0) }
    {
        match self {
            Width::Byte => true,
            Width::Half => at.0 % 2 == 0,
            Width::Word => at.0 % 4 == 0,
        }
    }
}

impl TryFrom<u32> for Width {
    type Error = Refusal;

    ghost try_from_gives = { λ bytes r. r ≡ width_of bytes };

    fn try_from(bytes: u32) -> Result<Width, Refusal> {
        match bytes {
            1 => Ok(Width::Byte),
            2 => Ok(Width::Half),
            4 => Ok(Width::Word),
            _ => Err(Refusal::Misaligned),
        }
    }
}

// `width` bytes from `at` on. The width is any number, since a bus answers to all of them.
#[derive(Clone, Copy, PartialEq, Eq, Debug)]
pub struct Access {
    pub at: PhysAddr,
    pub width: u32,
}

impl Access {
    pub fn new(at: PhysAddr, width: u32) -> Access
        ensures at { result.at ≡ at }
        ensures width { result.width ≡ width }
    {
        Access { at, width }
    }

    // The width, where the access is aligned.
    pub fn check(self) -> Result<Width, Refusal>
        ensures { result ≡ access_check self.at.0 self.width }
    {
        let width = Width::try_from(self.width)?;
        if width.divides(self.at) {
            Ok(width)
        } else {
            Err(Refusal::Misaligned)
        }
    }

    // Whether there is such a width and the address is a multiple of it.
    pub fn is_aligned(self) -> bool
        ensures { result ≡ aligned self.at.0 self.width }
    {
        self.check().is_ok()
    }

    // How it is refused where every address is absent.
    pub fn missing(self) -> Refusal
        ensures { Err result ≡ read_of nothing self.at.0 self.width }
    {
        self.check().err().unwrap_or(Refusal::Absent(self.at))
    }
}

impl fmt::Display for Access {
    ghost output = { λ access. Some (access_text access) };

    fn fmt<W: fmt::Write>(&self, f: &mut fmt::Formatter<W>) -> fmt::Result {
        write!(f, "{} {}", self.at, self.width)
    }
}
