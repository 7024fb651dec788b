// The registers by which programs read and write TLB entries: TLBIDX, TLBEHI, TLBELO0 and TLBELO1.
ghost use Rattle.std.specs.Prelude.{◌≡◌, ◌^◌, ◌<◌};
ghost use Rattle.csr.specs.TlbRegisters.{tlbelo, tlbelo_of, tlbidx, with_tlbidx, tlbehi, with_tlbehi};

use crate::words::flag;
use pages::{Bits, Frame, Half, PageSize, TlbIndex, Vppn};

// TLBELO0 or TLBELO1: a page, and a bit of its own for G.
#[derive(Clone, Copy, PartialEq, Eq, Debug)]
pub struct TlbLow {
    pub half: Half,
    pub global: bool,
}

#[derive(Clone, Copy, PartialEq, Eq, Debug)]
pub struct TlbRegisters {
    pub index: TlbIndex,
    pub ps: PageSize,
    pub ne: bool,
    pub vppn: Vppn,
    pub elo0: TlbLow,
    pub elo1: TlbLow,
}

impl TlbLow {
    pub fn tlbelo(&self) -> u32
        ensures { result ≡ tlbelo self.now }
    {
        u32::from(self.half.valid)
            | u32::from(self.half.dirty) << 1
            | self.half.plv.value() << 2
            | self.half.mat.value() << 4
            | u32::from(self.global) << 6
            | self.half.frame.0.value() << 8
    }

    pub fn of_tlbelo(word: u32) -> TlbLow
        ensures { result ≡ tlbelo_of word }
    {
        TlbLow {
            half: Half {
                valid: flag(word, 0),
                dirty: flag(word, 1),
                plv: Bits::of_low_bits(word >> 2),
                mat: Bits::of_low_bits(word >> 4),
                frame: Frame::of_low_bits(word >> 8),
            },
            global: flag(word, 6),
        }
    }
}

impl TlbRegisters {
    pub fn tlbidx(&self) -> u32
        ensures value { result ≡ tlbidx self.now }
        ensures fits { self.now.index < 2 ^ 4 }
    {
        self.index.value() | self.ps.number() << 24 | u32::from(self.ne) << 31
    }

    pub fn set_tlbidx(&mut self, word: u32)
        ensures { self.new ≡ with_tlbidx self.old word }
    {
        self.index = Bits::of_low_bits(word);
        self.ps = self.ps.written((word >> 24) % 64);
        self.ne = flag(word, 31);
    }

    pub fn tlbehi(&self) -> u32
        ensures { result ≡ tlbehi self.now }
    {
        self.vppn.value() << 13
    }

    pub fn set_tlbehi(&mut self, word: u32)
        ensures { self.new ≡ with_tlbehi self.old word }
    {
        self.vppn = Bits::of_low_bits(word >> 13);
    }
}
