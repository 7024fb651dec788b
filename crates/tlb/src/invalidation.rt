// Which entries an invalidation empties.
ghost use Rattle.std.specs.Prelude.{◌≡◌, ◌%◌, ◌^◌};
ghost use Rattle.tlb.specs.Invalidating.{numbered, selects};

use crate::entry::Entry;
use pages::{Asid, Bits, VirtAddr};

#[derive(Clone, Copy, PartialEq, Eq, Debug)]
pub enum Invalidation {
    All,
    Global,
    NotGlobal,
    NotGlobalOfAsid(Asid),
    NotGlobalOfAsidAt(Asid, VirtAddr),
    GlobalOrOfAsidAt(Asid, VirtAddr),
}

impl Invalidation {
    // The one that INVTLB's op names, with the ASID and the address in its two registers.
    pub fn numbered(op: u32, rj: u32, rk: u32) -> Option<Invalidation>
        ensures { result ≡ numbered op (rj % 2 ^ 10) (record { 0 = rk }) }
    {
        let asid = Bits::of_low_bits(rj);
        let at = VirtAddr(rk);
        match op {
            0 | 1 => Some(Invalidation::All),
            2 => Some(Invalidation::Global),
            3 => Some(Invalidation::NotGlobal),
            4 => Some(Invalidation::NotGlobalOfAsid(asid)),
            5 => Some(Invalidation::NotGlobalOfAsidAt(asid, at)),
            6 => Some(Invalidation::GlobalOrOfAsidAt(asid, at)),
            _ => None,
        }
    }

    // Whether it empties that entry. It does not matter whether the entry is empty already.
    pub(crate) fn selects(&self, entry: &Entry) -> bool
        ensures { result ≡ selects self.now entry.now }
    {
        match *self {
            Invalidation::All => true,
            Invalidation::Global => entry.global,
            Invalidation::NotGlobal => !entry.global,
            Invalidation::NotGlobalOfAsid(asid) => !entry.global && entry.asid == asid,
            Invalidation::NotGlobalOfAsidAt(asid, at) => {
                !entry.global && entry.asid == asid && entry.covers(at)
            }
            Invalidation::GlobalOrOfAsidAt(asid, at) => entry.maps_for(at, asid),
        }
    }
}
