// Exceptions by the manual's names.
ghost use Rattle.std.specs.Prelude.{◌≡◌, ◌^◌, ◌<◌};
ghost use Rattle.csr.specs.Exceptions.{ecode, esubcode, is_refill, fault_cause, cause_of, bad_address, faulting_page};

use pages::{VirtAddr, Vppn};

// What ESTAT tells of an exception.
#[derive(Clone, Copy, PartialEq, Eq, Debug)]
pub enum Cause {
    Int,
    Pil,
    Pis,
    Pif,
    Pme,
    Ppi,
    Adef,
    Ale,
    Sys,
    Brk,
    Ine,
    Ipe,
    Tlbr,
}

// Why an address is not translated.
#[derive(Clone, Copy, PartialEq, Eq, Debug)]
pub enum PageFault {
    // No TLB entry fits.
    Tlbr,
    // The page is not valid, for a fetch, a load or a store.
    Pif,
    Pil,
    Pis,
    // The page is for a higher privilege.
    Ppi,
    // A store to a page that is not dirty.
    Pme,
}

#[derive(Clone, Copy, PartialEq, Eq, Debug)]
pub enum Exception {
    Int,
    Adef,
    Ale(VirtAddr),
    Page(PageFault, VirtAddr),
    Sys,
    Brk,
    Ine,
    Ipe,
}

impl Cause {
    pub fn ecode(self) -> u32
        ensures value { result ≡ ecode self }
        ensures fits { result < 2 ^ 6 }
    {
        match self {
            Cause::Int => 0x0,
            Cause::Pil => 0x1,
            Cause::Pis => 0x2,
            Cause::Pif => 0x3,
            Cause::Pme => 0x4,
            Cause::Ppi => 0x7,
            Cause::Adef => 0x8,
            Cause::Ale => 0x9,
            Cause::Sys => 0xb,
            Cause::Brk => 0xc,
            Cause::Ine => 0xd,
            Cause::Ipe => 0xe,
            Cause::Tlbr => 0x3f,
        }
    }

    pub fn is_refill(self) -> bool
        ensures { result ≡ is_refill self }
    {
        self == Cause::Tlbr
    }

    // Only ADEM, a wrong data address, has EsubCode 1, and no data address is wrong here.
    pub fn esubcode(self) -> u32
        ensures { result ≡ esubcode self }
    {
        0
    }
}

impl PageFault {
    pub(crate) fn cause(self) -> Cause
        ensures { result ≡ fault_cause self }
    {
        match self {
            PageFault::Tlbr => Cause::Tlbr,
            PageFault::Pif => Cause::Pif,
            PageFault::Pil => Cause::Pil,
            PageFault::Pis => Cause::Pis,
            PageFault::Ppi => Cause::Ppi,
            PageFault::Pme => Cause::Pme,
        }
    }
}

impl Exception {
    pub fn cause(self) -> Cause
        ensures { result ≡ cause_of self }
    {
        match self {
            Exception::Int => Cause::Int,
            Exception::Adef => Cause::Adef,
            Exception::Ale(_) => Cause::Ale,
            Exception::Page(fault, _) => fault.cause(),
            Exception::Sys => Cause::Sys,
            Exception::Brk => Cause::Brk,
            Exception::Ine => Cause::Ine,
            Exception::Ipe => Cause::Ipe,
        }
    }

    // What it writes to BADV, at an instruction of that address.
    pub fn bad_address(self, pc: VirtAddr) -> Option<VirtAddr>
        ensures { result ≡ bad_address self pc }
    {
        match self {
            Exception::Adef => Some(pc),
            Exception::Ale(at) | Exception::Page(_, at) => Some(at),
            _ => None,
        }
    }

    // What it writes to TLBEHI's VPPN.
    pub fn faulting_page(self) -> Option<Vppn>
        ensures { result ≡ faulting_page self }
    {
        match self {
            Exception::Page(_, at) => Some(at.vppn()),
            _ => None,
        }
    }
}
