// Exceptions and the return from one, interrupts, and the beat that ends a step.
ghost use Rattle.std.specs.Prelude.{◌≡◌};
ghost use Rattle.csr.specs.Exceptions.{cause_of};
ghost use Rattle.control.specs.Exceptions.{handler, raised, returned, with_levels, interrupted, registers_after_beat};

use crate::registers::Registers;
use csr::{Cause, Exception, PreviousMode};
use pages::VirtAddr;

impl Registers {
    // EENTRY or TLBRENTRY.
    fn handler(&self, cause: Cause) -> VirtAddr
        ensures { result ≡ handler self.now cause }
    {
        let entry = if cause.is_refill() {
            self.tlbrentry
        } else {
            self.eentry
        };
        VirtAddr(entry.value() << 6)
    }

    // Gives the address at which the handler begins.
    pub fn raise(&mut self, exception: Exception, pc: VirtAddr) -> VirtAddr
        ensures state { self.new ≡ raised self.old exception pc }
        ensures handler { result ≡ handler self.old (cause_of exception) }
    {
        let cause = exception.cause();
        self.previous = PreviousMode {
            pplv: self.mode.plv,
            pie: self.mode.ie,
        };
        self.mode.enter(cause);
        self.cause = cause;
        self.era = pc;
        self.badv = exception.bad_address(pc).unwrap_or(self.badv);
        self.tlb_registers.vppn = exception.faulting_page().unwrap_or(self.tlb_registers.vppn);
        self.handler(cause)
    }

    // ERTN; gives the address at which the program goes on.
    pub fn ertn(&mut self) -> VirtAddr
        ensures state { self.new ≡ returned self.old }
        ensures address { result ≡ self.old.era }
    {
        self.mode.leave(self.previous, self.cause);
        self.link = false;
        self.era
    }

    // ESTAT.IS[9:2] follows the levels of the eight hardware lines.
    pub fn take_levels(&mut self, levels: u8)
        ensures { self.new ≡ with_levels self.old levels }
    {
        self.interrupts.pending.hwi = levels;
    }

    // Whether an interrupt is taken: one is due, and IE is 1.
    pub fn is_interrupted(&self) -> bool
        ensures { result ≡ interrupted self.now }
    {
        self.mode.ie && self.interrupts.is_due()
    }

    pub fn beat(&mut self)
        ensures { self.new ≡ registers_after_beat self.old }
    {
        if self.timer.beat() {
            self.interrupts.pending.ti = true;
        }
    }
}
