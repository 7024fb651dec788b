// The mode in which the processor runs: CRMD, and ASID.
ghost use Rattle.std.specs.Prelude.{◌≡◌, ◌^◌, ◌<◌};
ghost use Rattle.csr.specs.Mode.{da_pg, da_pg_written, crmd, with_crmd, asid_word, with_asid, handler_mode, returned_mode};

use crate::exception::Cause;
use crate::previous::PreviousMode;
use crate::words::flag;
use pages::{ASID_BITS, AccessType, Asid, Bits, Privilege};

// CRMD's DA and PG: 1 and 0, or 0 and 1.
#[derive(Clone, Copy, PartialEq, Eq, Debug)]
pub enum TranslationMode {
    Direct,
    Mapped,
}

#[derive(Clone, Copy, PartialEq, Eq, Debug)]
pub struct Mode {
    pub plv: Privilege,
    pub ie: bool,
    pub translation: TranslationMode,
    pub datf: AccessType,
    pub datm: AccessType,
    pub asid: Asid,
}

impl TranslationMode {
    // PG and DA as a number of two bits.
    pub(crate) fn number(self) -> u32
        ensures { result ≡ da_pg self }
    {
        match self {
            TranslationMode::Direct => 1,
            TranslationMode::Mapped => 2,
        }
    }

    // What DA and PG hold after that number was written to them.
    pub(crate) fn written(self, number: u32) -> TranslationMode
        ensures { result ≡ da_pg_written self number }
    {
        match number {
            1 => TranslationMode::Direct,
            2 => TranslationMode::Mapped,
            _ => self,
        }
    }
}

impl Mode {
    pub fn crmd(&self) -> u32
        ensures { result ≡ crmd self.now }
    {
        self.plv.number()
            | u32::from(self.ie) << 2
            | self.translation.number() << 3
            | self.datf.value() << 5
            | self.datm.value() << 7
    }

    pub fn set_crmd(&mut self, word: u32)
        ensures { self.new ≡ with_crmd self.old word }
    {
        self.plv = self.plv.written(word % 4);
        self.ie = flag(word, 2);
        self.translation = self.translation.written((word >> 3) % 4);
        self.datf = Bits::of_low_bits(word >> 5);
        self.datm = Bits::of_low_bits(word >> 7);
    }

    pub fn asid_word(&self) -> u32
        ensures value { result ≡ asid_word self.now }
        ensures fits { self.now.asid < 2 ^ 10 }
    {
        self.asid.value() | ASID_BITS << 16
    }

    pub fn set_asid(&mut self, word: u32)
        ensures { self.new ≡ with_asid self.old word }
    {
        self.asid = Bits::of_low_bits(word);
    }

    // As an exception's handler begins.
    pub fn enter(&mut self, cause: Cause)
        ensures { self.new ≡ handler_mode self.old cause }
    {
        self.plv = Privilege::Plv0;
        self.ie = false;
        if cause.is_refill() {
            self.translation = TranslationMode::Direct;
        }
    }

    // As ERTN leaves the handler of an exception of that cause.
    pub fn leave(&mut self, previous: PreviousMode, cause: Cause)
        ensures { self.new ≡ returned_mode self.old previous cause }
    {
        self.plv = previous.pplv;
        self.ie = previous.pie;
        if cause.is_refill() {
            self.translation = TranslationMode::Mapped;
        }
    }
}
