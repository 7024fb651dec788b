// An address on the bus. It is a type of its own, so that neither a program's virtual address nor a frame number passes for one.
ghost use Rattle.std.specs.Prelude.{◌≡◌, Some};
ghost use Rattle.bus.specs.Memory.{address_after};
ghost use Rattle.bus.specs.Text.{address_text};

use std::fmt;

#[derive(Clone, Copy, PartialEq, Eq, Debug)]
pub struct PhysAddr(pub u32);

impl PhysAddr {
    // The address so many bytes further; behind the last comes the first.
    pub fn wrapping_add(self, bytes: u32) -> PhysAddr
        ensures { result ≡ address_after self bytes }
    {
        PhysAddr(self.0.wrapping_add(bytes))
    }
}

impl fmt::Display for PhysAddr {
    ghost output = { λ at. Some (address_text at) };

    fn fmt<W: fmt::Write>(&self, f: &mut fmt::Formatter<W>) -> fmt::Result {
        write!(f, "0x{:08X}", self.0)
    }
}
