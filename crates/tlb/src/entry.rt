// An entry of the TLB: which pair of pages it maps, and for whom.
ghost use Rattle.std.specs.Prelude.{◌≡◌};
ghost use Rattle.tlb.specs.Entries.{empty, covers, maps_for, fits, odd, half};

use pages::{Asid, Bits, Frame, Half, PageSize, VirtAddr, Vppn};

#[derive(Clone, Copy, PartialEq, Eq, Debug)]
pub struct Entry {
    pub exists: bool,
    pub asid: Asid,
    pub global: bool,
    pub page_size: PageSize,
    pub vppn: Vppn,
    pub even: Half,
    pub odd: Half,
}

impl Entry {
    // As reset leaves each entry.
    pub fn empty() -> Entry
        ensures { result ≡ empty }
    {
        let even = Half {
            valid: false,
            dirty: false,
            plv: Bits::of_low_bits(0),
            mat: Bits::of_low_bits(0),
            frame: Frame::of_low_bits(0),
        };
        let odd = even;
        Entry {
            exists: false,
            asid: Bits::of_low_bits(0),
            global: false,
            page_size: PageSize::Small,
            vppn: Bits::of_low_bits(0),
            even,
            odd,
        }
    }

    // Whether the address lies in one of the entry's two pages: whether its bits from 31 down to PS + 1 are the entry's.
    pub(crate) fn covers(&self, at: VirtAddr) -> bool
        ensures { result ≡ covers self.now at.0 }
    {
        match self.page_size {
            PageSize::Small => at.vppn() == self.vppn,
            PageSize::Large => at.0 >> 22 == self.vppn.value() >> 9,
        }
    }

    // Whether it maps the address for a program of that ASID, if it exists.
    pub(crate) fn maps_for(&self, at: VirtAddr, asid: Asid) -> bool
        ensures { result ≡ maps_for self.now at.0 asid }
    {
        (self.global || self.asid == asid) && self.covers(at)
    }

    pub(crate) fn fits(&self, at: VirtAddr, asid: Asid) -> bool
        ensures { result ≡ fits self.now at.0 asid }
    {
        self.exists && self.maps_for(at, asid)
    }

    // Bit PS of the address: whether it lies in the second of the two pages, if in one of them.
    fn is_odd(&self, at: VirtAddr) -> bool
        ensures { result ≡ odd self.now.page_size at.0 }
    {
        match self.page_size {
            PageSize::Small => (at.0 >> 12) % 2 == 1,
            PageSize::Large => (at.0 >> 21) % 2 == 1,
        }
    }

    // Of the two pages the one in which the address lies.
    pub fn half(&self, at: VirtAddr) -> &Half
        ensures { result.now ≡ half self.now at.0 }
    {
        if self.is_odd(at) {
            &self.odd
        } else {
            &self.even
        }
    }
}
