// Interrupts: which are pending (ESTAT.IS), and which are enabled one by one (ECFG.LIE).
ghost use Rattle.std.specs.Prelude.{◌≡◌};
ghost use Rattle.csr.specs.Interrupts.{pending_bits, PendingFits, enabled_bits, with_swi, enabled_of, due};

use crate::words::flag;
use pages::Bits;

// Software interrupts, hardware lines, the timer's. Nothing brings about an interrupt between processors, there being one.
#[derive(Clone, Copy, PartialEq, Eq, Debug)]
pub struct Pending {
    pub swi: Bits<2>,
    pub hwi: u8,
    pub ti: bool,
}

#[derive(Clone, Copy, PartialEq, Eq, Debug)]
pub struct Enabled {
    pub swi: Bits<2>,
    pub hwi: u8,
    pub ti: bool,
    pub ipi: bool,
}

#[derive(Clone, Copy, PartialEq, Eq, Debug)]
pub struct Interrupts {
    pub pending: Pending,
    pub enabled: Enabled,
}

impl Pending {
    pub fn pending_bits(&self) -> u32
        ensures value { result ≡ pending_bits self.now }
        ensures fits { PendingFits self.now }
    {
        self.swi.value() | u32::from(self.hwi) << 2 | u32::from(self.ti) << 11
    }

    // As ESTAT is written: the software interrupts alone.
    pub fn set_swi(&mut self, word: u32)
        ensures { self.new ≡ with_swi self.old word }
    {
        self.swi = Bits::of_low_bits(word);
    }
}

impl Enabled {
    pub fn enabled_bits(&self) -> u32
        ensures { result ≡ enabled_bits self.now }
    {
        self.swi.value()
            | u32::from(self.hwi) << 2
            | u32::from(self.ti) << 11
            | u32::from(self.ipi) << 12
    }

    pub fn of_enabled_bits(word: u32) -> Enabled
        ensures { result ≡ enabled_of word }
    {
        Enabled {
            swi: Bits::of_low_bits(word),
            hwi: ((word >> 2) % 0x100) as u8,
            ti: flag(word, 11),
            ipi: flag(word, 12),
        }
    }
}

impl Interrupts {
    pub fn is_due(&self) -> bool
        ensures { result ≡ due self.now }
    {
        let swi = self.pending.swi.value() & self.enabled.swi.value();
        let hwi = self.pending.hwi & self.enabled.hwi;
        swi != 0 || hwi != 0 || (self.pending.ti && self.enabled.ti)
    }
}
