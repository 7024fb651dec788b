// What PLV0 alone may do.
ghost use Rattle.std.specs.Prelude.{◌≡◌, ◌%◌, ◌^◌};
ghost use Rattle.control.specs.Numbers.{csr_numbered};
ghost use Rattle.tlb.specs.Invalidating.{numbered};
ghost use Rattle.actions.specs.User.{virtual};
ghost use Rattle.machine.specs.Outcomes.{settled};
ghost use Rattle.machine.specs.Supervision.{csr_read, csr_written, csr_exchanged, tlb_done, invalidate, ertn, idle, supervise, by_privilege};

use crate::answers::Event;
use crate::state::{Activity, State};
use actions::PrivilegedAction;
use csr::Exception;
use isa::{Reg, TlbOp};
use pages::Privilege;
use tlb::Invalidation;

impl State {
    fn csrrd(&mut self, rd: Reg, csr: u32)
        ensures { self.new ≡ csr_read self.old rd (csr_numbered csr) }
    {
        let old = self.registers.csrrd(csr);
        self.set_result(rd, old);
    }

    fn csrwr(&mut self, rd: Reg, csr: u32, value: u32)
        ensures { self.new ≡ csr_written self.old rd (csr_numbered csr) value }
    {
        let old = self.registers.csrwr(csr, value);
        self.set_result(rd, old);
    }

    fn csrxchg(&mut self, rd: Reg, csr: u32, value: u32, mask: u32)
        ensures { self.new ≡ csr_exchanged self.old rd (csr_numbered csr) value mask }
    {
        let old = self.registers.csrxchg(csr, value, mask);
        self.set_result(rd, old);
    }

    fn tlb(&mut self, op: TlbOp)
        ensures { self.new ≡ tlb_done self.old op }
    {
        match op {
            TlbOp::Tlbsrch => self.registers.tlbsrch(&self.tlb),
            TlbOp::Tlbrd => self.registers.tlbrd(&self.tlb),
            TlbOp::Tlbwr => self.registers.tlbwr(&mut self.tlb),
            TlbOp::Tlbfill => self.registers.tlbfill(&mut self.tlb),
        }
        self.advance();
    }

    fn invtlb(&mut self, op: u32, asid_word: u32, address: u32) -> Event
        ensures { settled result self.new ≡ invalidate self.old (numbered op (asid_word % 2 ^ 10) (virtual address)) }
    {
        match Invalidation::numbered(op, asid_word, address) {
            Some(which) => {
                self.tlb.invalidate(which);
                self.advance();
                Event::Done
            }
            None => self.raise(Exception::Ine),
        }
    }

    fn ertn(&mut self)
        ensures { self.new ≡ ertn self.old }
    {
        self.user.pc = self.registers.ertn();
    }

    fn idle(&mut self)
        ensures { self.new ≡ idle self.old }
    {
        self.activity = Activity::Waiting;
        self.advance();
    }

    fn supervise(&mut self, action: PrivilegedAction) -> Event
        ensures { settled result self.new ≡ supervise self.old action }
    {
        match action {
            PrivilegedAction::Csrrd { rd, csr } => self.csrrd(rd, csr),
            PrivilegedAction::Csrwr { rd, csr, value } => self.csrwr(rd, csr, value),
            PrivilegedAction::Csrxchg {
                rd,
                csr,
                value,
                mask,
            } => self.csrxchg(rd, csr, value, mask),
            PrivilegedAction::Tlb(op) => self.tlb(op),
            PrivilegedAction::Invtlb {
                op,
                asid_word,
                address,
            } => return self.invtlb(op, asid_word, address),
            PrivilegedAction::Ertn => self.ertn(),
            PrivilegedAction::Idle => self.idle(),
            PrivilegedAction::Cacop => self.advance(),
        }
        Event::Done
    }

    // The one place where an action's privilege is tested; that of a page is tested in translation.
    pub(crate) fn by_privilege(&mut self, action: PrivilegedAction) -> Event
        ensures { settled result self.new ≡ by_privilege self.old.registers.mode.plv self.old action }
    {
        match self.registers.mode.plv {
            Privilege::Plv0 => self.supervise(action),
            Privilege::Plv3 => self.raise(Exception::Ipe),
        }
    }
}
