// TLBSRCH, TLBRD, TLBWR and TLBFILL.
ghost use Rattle.std.specs.Prelude.{◌≡◌};
ghost use Rattle.tlb.specs.Searching.{entry, written, filled};
ghost use Rattle.control.specs.TlbInstructions.{entry_to_write, tlbsrch, tlbrd};

use crate::registers::Registers;
use csr::{TlbLow, TlbRegisters};
use pages::VirtAddr;
use tlb::{Entry, Tlb};

impl Registers {
    // The entry that TLBWR and TLBFILL write. While a refill is handled it always exists.
    fn entry_to_write(&self) -> Entry
        ensures { result ≡ entry_to_write self.now }
    {
        Entry {
            exists: !self.tlb_registers.ne || self.cause.is_refill(),
            asid: self.mode.asid,
            global: self.tlb_registers.elo0.global && self.tlb_registers.elo1.global,
            page_size: self.tlb_registers.ps,
            vppn: self.tlb_registers.vppn,
            even: self.tlb_registers.elo0.half,
            odd: self.tlb_registers.elo1.half,
        }
    }

    // TLBSRCH
    pub fn tlbsrch(&mut self, tlb: &Tlb)
        ensures { self.new ≡ tlbsrch self.old tlb.now }
    {
        let at = VirtAddr(self.tlb_registers.tlbehi());
        match tlb.find(at, self.mode.asid) {
            Some(index) => {
                self.tlb_registers.index = index;
                self.tlb_registers.ne = false;
            }
            None => self.tlb_registers.ne = true,
        }
    }

    // TLBRD: ASID is not written, and an empty entry sets NE alone.
    pub fn tlbrd(&mut self, tlb: &Tlb)
        ensures { self.new ≡ tlbrd self.old (entry tlb.now self.old.tlb_registers.index) }
    {
        let entry = tlb.entry(self.tlb_registers.index);
        if !entry.exists {
            self.tlb_registers.ne = true;
            return;
        }
        self.tlb_registers = TlbRegisters {
            index: self.tlb_registers.index,
            ps: entry.page_size,
            ne: false,
            vppn: entry.vppn,
            elo0: TlbLow {
                half: entry.even,
                global: entry.global,
            },
            elo1: TlbLow {
                half: entry.odd,
                global: entry.global,
            },
        };
    }

    // TLBWR: at TLBIDX's Index.
    pub fn tlbwr(&self, tlb: &mut Tlb)
        ensures { tlb.new ≡ written self.now.tlb_registers.index (entry_to_write self.now) tlb.old }
    {
        tlb.write(self.tlb_registers.index, self.entry_to_write());
    }

    // TLBFILL: at the fill place.
    pub fn tlbfill(&self, tlb: &mut Tlb)
        ensures { tlb.new ≡ filled (entry_to_write self.now) tlb.old }
    {
        tlb.fill(self.entry_to_write());
    }
}
