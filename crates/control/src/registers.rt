// The control registers' contents.
use csr::{Cause, Interrupts, Mode, PreviousMode, Timer, TlbRegisters, Windows};
use pages::{Bits, Frame, VirtAddr};

#[derive(Clone, Copy, PartialEq, Eq, Debug)]
pub struct Registers {
    // CRMD and ASID.
    pub mode: Mode,
    // PRMD.
    pub previous: PreviousMode,
    // ECFG, and ESTAT's IS.
    pub interrupts: Interrupts,
    // ESTAT's Ecode and EsubCode.
    pub cause: Cause,
    pub era: VirtAddr,
    pub badv: VirtAddr,
    // Bits 31 to 6 of EENTRY and TLBRENTRY.
    pub eentry: Bits<26>,
    pub tlbrentry: Bits<26>,
    pub tlb_registers: TlbRegisters,
    // Bits 31 to 12 of PGDL and PGDH.
    pub pgdl: Frame,
    pub pgdh: Frame,
    pub save0: u32,
    pub save1: u32,
    pub save2: u32,
    pub save3: u32,
    // TID, TCFG, TVAL, and the counter of 64 bits, which is no control register.
    pub timer: Timer,
    pub windows: Windows,
    // LLBCTL's ROLLB.
    pub link: bool,
}
