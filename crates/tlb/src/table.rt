// The TLB's entries, and the index that the next TLBFILL writes.
ghost use Rattle.std.specs.Prelude.{◌≡◌, length};
ghost use Rattle.tlb.specs.Searching.{reset_tlb, entry, find, find_from, IsFirst, written, filled};
ghost use Rattle.tlb.specs.Invalidating.{invalidated};

use crate::entry::Entry;
use crate::invalidation::Invalidation;
use pages::{Asid, Bits, TlbIndex, VirtAddr};
use std::mem;

// As many as an index has values.
pub const ENTRIES: usize = 16;

#[derive(Clone, Copy, PartialEq, Eq, Debug)]
pub struct Tlb {
    entries: [Entry; ENTRIES],
    fill_at: TlbIndex,
}

// The search stands over a slice, since within a loop it is not known how many entries an array behind a reference has.
fn first(entries: &[Entry], at: VirtAddr, asid: Asid) -> Option<TlbIndex>
    requires { length entries.now ≡ ENTRIES }
    ensures value { result ≡ find_from 0 entries.now at.0 asid }
    ensures first { IsFirst entries.now at.0 asid result }
{
    for (index, entry) in entries.iter().enumerate() {
        if entry.fits(at, asid) {
            return Some(Bits::of_low_bits(index as u32));
        }
    }
    None
}

impl Tlb {
    // As reset leaves it.
    pub fn new() -> Tlb
        ensures { result ≡ reset_tlb }
    {
        Tlb {
            entries: [Entry::empty(); ENTRIES],
            fill_at: Bits::of_low_bits(0),
        }
    }

    // The first entry that maps the address for a program of that ASID.
    pub fn find(&self, at: VirtAddr, asid: Asid) -> Option<TlbIndex>
        ensures value { result ≡ find self.now at.0 asid }
        ensures first { IsFirst self.now.entries at.0 asid result }
    {
        first(&self.entries, at, asid)
    }

    pub fn entry(&self, index: TlbIndex) -> &Entry
        ensures { result.now ≡ entry self.now index }
    {
        &self.entries[index.value() as usize]
    }

    pub fn write(&mut self, index: TlbIndex, entry: Entry)
        ensures { self.new ≡ written index entry self.old }
    {
        self.entries[index.value() as usize] = entry;
    }

    // Writes at the fill place, which then goes on by one, from the last to the first.
    pub fn fill(&mut self, entry: Entry)
        ensures { self.new ≡ filled entry self.old }
    {
        let next = Bits::of_low_bits(self.fill_at.value() + 1);
        let index = mem::replace(&mut self.fill_at, next);
        self.write(index, entry);
    }

    // Empties each entry that is selected.
    pub fn invalidate(&mut self, which: Invalidation)
        ensures { self.new ≡ invalidated which self.old }
    {
        for i in 0..ENTRIES {
            let entry = &mut self.entries[i];
            if which.selects(entry) {
                entry.exists = false;
            }
        }
    }
}
