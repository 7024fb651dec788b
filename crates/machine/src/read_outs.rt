// What is read out of a running core.
ghost use Rattle.std.specs.Prelude.{◌≡◌, Ok};
ghost use Rattle.machine.specs.Calls.{register_read, control_register_read, tlb_entry_read};

use crate::answers::CallRefusal;
use crate::stages::RunningCore;
use control::Csr;
use isa::Reg;
use pages::{Bits, VirtAddr};
use tlb::{ENTRIES, Entry};

impl RunningCore {
    pub fn pc(&self) -> VirtAddr
        ensures { result ≡ self.now.user.pc }
    {
        self.inner.state.user.pc
    }

    pub fn register(&self, number: u32) -> Result<u32, CallRefusal>
        ensures value { result ≡ register_read self.now number }

        // In no core does r0 differ from 0.
        ensures zero { number ≡ 0 → result ≡ Ok 0 }
    {
        if number < 32 {
            Ok(self.inner.state.user.general.read(Reg::of_low_bits(number)))
        } else {
            Err(CallRefusal::NoRegister)
        }
    }

    pub fn control_register(&self, number: u32) -> Result<u32, CallRefusal>
        ensures { result ≡ control_register_read self.now number }
    {
        match Csr::numbered(number) {
            Some(csr) => Ok(self.inner.state.registers.read(csr)),
            None => Err(CallRefusal::NoControlRegister),
        }
    }

    pub fn tlb_entry(&self, number: u32) -> Result<Entry, CallRefusal>
        ensures { result ≡ tlb_entry_read self.now number }
    {
        if number < ENTRIES as u32 {
            Ok(*self.inner.state.tlb.entry(Bits::of_low_bits(number)))
        } else {
            Err(CallRefusal::NoTlbEntry)
        }
    }
}
