// Where things lie on both boards.
use bus::{PhysAddr, Span};
use valves::BYTES;

// The first maker's page.
pub(crate) const PAGE: PhysAddr = PhysAddr(0x1000);

// The second maker's formula book.
pub(crate) const BOOK: PhysAddr = PhysAddr(0x2000);

pub(crate) const VALVES: PhysAddr = PhysAddr(0x1000_0000);

pub(crate) const ROM: PhysAddr = PhysAddr(0x1c00_0000);

pub(crate) const PAGE_BYTES: usize = 0x1000;

pub(crate) const ROM_BYTES: usize = 0x3000;

// In the ROM, from its base on. START has the handlers' addresses in its words, and the TLB entries those of the programs.
pub(crate) const HANDLER_AT: u32 = 0x200;

pub(crate) const REFILL_AT: u32 = 0x280;

pub(crate) const FIRST_MAKER_AT: u32 = 0x1000;

pub(crate) const SECOND_MAKER_AT: u32 = 0x2000;

pub(crate) fn valves_span() -> Span {
    Span::new(VALVES, BYTES)
}
