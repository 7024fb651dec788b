// Reads and writes of the control registers.
ghost use Rattle.std.specs.Prelude.{◌≡◌};
ghost use Rattle.control.specs.Registers.{pgd, estat, with_ticlr, with_llbctl, read_of, written};
ghost use Rattle.control.specs.Fields.{ReadFits};

use crate::number::Csr;
use crate::registers::Registers;
use csr::{Enabled, TlbLow, Window, flag};
use pages::{Bits, Frame, VirtAddr};

impl Registers {
    // The directory for the half of the address space in which BADV lies.
    fn pgd(&self) -> Frame
        ensures { result ≡ pgd self.now }
    {
        if self.badv.0 >> 31 == 0 {
            self.pgdl
        } else {
            self.pgdh
        }
    }

    fn pgd_word(&self) -> u32
        ensures value { result ≡ read_of self.now Csr.Pgd }
        ensures fits { ReadFits self.now Csr.Pgd }
    {
        self.pgd().0.value() << 12
    }

    fn estat(&self) -> u32
        ensures value { result ≡ estat self.now }
        ensures fits { ReadFits self.now Csr.Estat }
    {
        self.interrupts.pending.pending_bits()
            | self.cause.ecode() << 16
            | self.cause.esubcode() << 22
    }

    // Writing 1 to CLR clears the timer's interrupt.
    fn set_ticlr(&mut self, word: u32)
        ensures { self.new ≡ with_ticlr self.old word }
    {
        if flag(word, 0) {
            self.interrupts.pending.ti = false;
        }
    }

    // Writing 1 to WCLLB clears the link.
    fn set_llbctl(&mut self, word: u32)
        ensures { self.new ≡ with_llbctl self.old word }
    {
        if flag(word, 1) {
            self.link = false;
        }
    }

    pub fn read(&self, csr: Csr) -> u32
        ensures value { result ≡ read_of self.now csr }
        ensures fits { ReadFits self.now csr }
    {
        match csr {
            Csr::Crmd => self.mode.crmd(),
            Csr::Prmd => self.previous.prmd(),
            Csr::Ecfg => self.interrupts.enabled.enabled_bits(),
            Csr::Estat => self.estat(),
            Csr::Era => self.era.0,
            Csr::Badv => self.badv.0,
            Csr::Eentry => self.eentry.value() << 6,
            Csr::Tlbidx => self.tlb_registers.tlbidx(),
            Csr::Tlbehi => self.tlb_registers.tlbehi(),
            Csr::Tlbelo0 => self.tlb_registers.elo0.tlbelo(),
            Csr::Tlbelo1 => self.tlb_registers.elo1.tlbelo(),
            Csr::Asid => self.mode.asid_word(),
            Csr::Pgdl => self.pgdl.0.value() << 12,
            Csr::Pgdh => self.pgdh.0.value() << 12,
            Csr::Pgd => self.pgd_word(),
            Csr::Save0 => self.save0,
            Csr::Save1 => self.save1,
            Csr::Save2 => self.save2,
            Csr::Save3 => self.save3,
            Csr::Tid => self.timer.tid,
            Csr::Tcfg => self.timer.tcfg(),
            Csr::Tval => self.timer.tval,
            Csr::Llbctl => u32::from(self.link),
            Csr::Tlbrentry => self.tlbrentry.value() << 6,
            Csr::Dmw0 => self.windows.dmw0.dmw(),
            Csr::Dmw1 => self.windows.dmw1.dmw(),
            Csr::Euen | Csr::Cpuid | Csr::Ticlr | Csr::Ctag => 0,
        }
    }

    pub(crate) fn write(&mut self, csr: Csr, word: u32)
        ensures { self.new ≡ written self.old csr word }
    {
        match csr {
            Csr::Crmd => self.mode.set_crmd(word),
            Csr::Prmd => self.previous.set_prmd(word),
            Csr::Ecfg => self.interrupts.enabled = Enabled::of_enabled_bits(word),
            Csr::Estat => self.interrupts.pending.set_swi(word),
            Csr::Era => self.era = VirtAddr(word),
            Csr::Badv => self.badv = VirtAddr(word),
            Csr::Eentry => self.eentry = Bits::of_low_bits(word >> 6),
            Csr::Tlbidx => self.tlb_registers.set_tlbidx(word),
            Csr::Tlbehi => self.tlb_registers.set_tlbehi(word),
            Csr::Tlbelo0 => self.tlb_registers.elo0 = TlbLow::of_tlbelo(word),
            Csr::Tlbelo1 => self.tlb_registers.elo1 = TlbLow::of_tlbelo(word),
            Csr::Asid => self.mode.set_asid(word),
            Csr::Pgdl => self.pgdl = Frame::of_low_bits(word >> 12),
            Csr::Pgdh => self.pgdh = Frame::of_low_bits(word >> 12),
            Csr::Save0 => self.save0 = word,
            Csr::Save1 => self.save1 = word,
            Csr::Save2 => self.save2 = word,
            Csr::Save3 => self.save3 = word,
            Csr::Tid => self.timer.tid = word,
            Csr::Tcfg => self.timer.set_tcfg(word),
            Csr::Ticlr => self.set_ticlr(word),
            Csr::Llbctl => self.set_llbctl(word),
            Csr::Tlbrentry => self.tlbrentry = Bits::of_low_bits(word >> 6),
            Csr::Dmw0 => self.windows.dmw0 = Window::of_dmw(word),
            Csr::Dmw1 => self.windows.dmw1 = Window::of_dmw(word),
            Csr::Pgd | Csr::Tval | Csr::Euen | Csr::Cpuid | Csr::Ctag => {}
        }
    }
}
