// A program's address, and the number of a frame of physical memory. With `PhysAddr` they are three types: a call that is due one
// takes neither of the others. Translation alone makes a physical address of a virtual one; the look-aside of the core, which keeps the
// last page and frame for each kind of access, gives again what translation gave, by its invariant.
ghost use Rattle.std.specs.Prelude.{◌≡◌, ◌/◌, ◌%◌, ◌^◌};

use crate::bits::{Bits, Vppn};

#[derive(Clone, Copy, PartialEq, Eq, Debug)]
pub struct VirtAddr(pub u32);

// The upper 20 bits of a physical address.
#[derive(Clone, Copy, PartialEq, Eq, Debug)]
pub struct Frame(pub Bits<20>);

impl VirtAddr {
    pub fn vppn(self) -> Vppn
        ensures { result ≡ self.0 / 2 ^ 13 }
    {
        Bits::of_low_bits(self.0 >> 13)
    }
}

impl Frame {
    pub fn of_low_bits(number: u32) -> Frame
        ensures { result.0 ≡ number % 2 ^ 20 }
    {
        Frame(Bits::of_low_bits(number))
    }
}
