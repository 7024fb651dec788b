// What instructions of each form ask for.
ghost use Rattle.std.specs.Prelude.{◌≡◌};
ghost use Rattle.operations.specs.Operations.{register_result, shift_result, immediate_result, upper_result};
ghost use Rattle.actions.specs.declared.action.Action.TheVariants as action;
ghost use Rattle.actions.specs.declared.action.PrivilegedAction.TheVariants as privileged;
ghost use Rattle.actions.specs.Registers.{gr};
ghost use Rattle.actions.specs.Addresses.{by_si12, by_si14, from_pc};
ghost use Rattle.actions.specs.Plan.{result_action, jump_and_link, nop, counter_half, branch, csrwr, csrxchg, cacop, invtlb};

use crate::action::{Action, PrivilegedAction};
use crate::user::UserState;
use csr::Timer;
use isa::{
    BranchOp, CounterHalf, Field, ImmediateOp, LoadOp, Reg, RegisterOp, ShiftOp, StoreOp, UpperOp,
    is_hit,
};
use operations::{immediate_result, is_taken, register_result, shift_result, upper_result};
use pages::VirtAddr;

pub(crate) fn counter_half(half: CounterHalf, timer: &Timer) -> u32
    ensures { result ≡ counter_half half timer.now.counter }
{
    match half {
        CounterHalf::Low => (timer.counter % 0x1_0000_0000) as u32,
        CounterHalf::High => (timer.counter >> 32) as u32,
    }
}

pub(crate) fn csrrd(rd: Reg, csr: u32) -> Action
    ensures { result ≡ action.Privileged (privileged.Csrrd rd csr) }
{
    Action::Privileged(PrivilegedAction::Csrrd { rd, csr })
}

impl UserState {
    pub(crate) fn result_action(&self, rd: Reg, value: u32) -> Action
        ensures { result ≡ result_action self.now rd value }
    {
        Action::Write {
            rd,
            value,
            next: self.next_pc(),
        }
    }

    // BL and JIRL: rd gets the address of the next instruction.
    pub(crate) fn jump_and_link(&self, rd: Reg, next: VirtAddr) -> Action
        ensures { result ≡ jump_and_link self.now rd next }
    {
        Action::Write {
            rd,
            value: self.next_pc().0,
            next,
        }
    }

    pub(crate) fn nop(&self) -> Action
        ensures { result ≡ nop self.now }
    {
        Action::Go {
            next: self.next_pc(),
        }
    }

    pub(crate) fn jump<const N: u32>(&self, offs: Field<N>) -> Action
        ensures { result ≡ action.Go (from_pc N self.now offs.entry) }
    {
        Action::Go {
            next: self.from_pc(offs),
        }
    }

    pub(crate) fn branch(&self, op: BranchOp, rj: Reg, rd: Reg, offs16: Field<16>) -> Action
        ensures { result ≡ branch self.now op rj rd offs16 }
    {
        if is_taken(op, self.general.read(rj), self.general.read(rd)) {
            self.jump(offs16)
        } else {
            self.nop()
        }
    }

    pub(crate) fn register(&self, op: RegisterOp, rd: Reg, rj: Reg, rk: Reg) -> Action
        ensures { result ≡ result_action self.now rd (register_result op (gr self.now.general rj) (gr self.now.general rk)) }
    {
        let value = register_result(op, self.general.read(rj), self.general.read(rk));
        self.result_action(rd, value)
    }

    pub(crate) fn shift(&self, op: ShiftOp, rd: Reg, rj: Reg, ui5: Field<5>) -> Action
        ensures { result ≡ result_action self.now rd (shift_result op (gr self.now.general rj) ui5) }
    {
        self.result_action(rd, shift_result(op, self.general.read(rj), ui5))
    }

    pub(crate) fn immediate(&self, op: ImmediateOp, rd: Reg, rj: Reg, imm12: Field<12>) -> Action
        ensures { result ≡ result_action self.now rd (immediate_result op (gr self.now.general rj) imm12) }
    {
        self.result_action(rd, immediate_result(op, self.general.read(rj), imm12))
    }

    pub(crate) fn upper(&self, op: UpperOp, rd: Reg, si20: Field<20>) -> Action
        ensures { result ≡ result_action self.now rd (upper_result op self.now.pc.0 si20) }
    {
        self.result_action(rd, upper_result(op, self.pc.0, si20))
    }

    pub(crate) fn load(&self, op: LoadOp, rd: Reg, rj: Reg, si12: Field<12>) -> Action
        ensures { result ≡ action.Load op rd (by_si12 self.now rj si12) }
    {
        let at = self.by_si12(rj, si12);
        Action::Load { op, rd, at }
    }

    pub(crate) fn store(&self, op: StoreOp, rd: Reg, rj: Reg, si12: Field<12>) -> Action
        ensures { result ≡ action.Store op (by_si12 self.now rj si12) (gr self.now.general rd) }
    {
        let at = self.by_si12(rj, si12);
        let value = self.general.read(rd);
        Action::Store { op, at, value }
    }

    pub(crate) fn ll(&self, rd: Reg, rj: Reg, si14: Field<14>) -> Action
        ensures { result ≡ action.LoadLinked rd (by_si14 self.now rj si14) }
    {
        let at = self.by_si14(rj, si14);
        Action::LoadLinked { rd, at }
    }

    pub(crate) fn sc(&self, rd: Reg, rj: Reg, si14: Field<14>) -> Action
        ensures { result ≡ action.StoreConditional rd (by_si14 self.now rj si14) (gr self.now.general rd) }
    {
        let at = self.by_si14(rj, si14);
        let value = self.general.read(rd);
        Action::StoreConditional { rd, at, value }
    }

    pub(crate) fn csrwr(&self, rd: Reg, csr: u32) -> Action
        ensures { result ≡ csrwr self.now rd csr }
    {
        let value = self.general.read(rd);
        Action::Privileged(PrivilegedAction::Csrwr { rd, csr, value })
    }

    pub(crate) fn csrxchg(&self, rd: Reg, rj: Reg, csr: u32) -> Action
        ensures { result ≡ csrxchg self.now rd rj csr }
    {
        Action::Privileged(PrivilegedAction::Csrxchg {
            rd,
            csr,
            value: self.general.read(rd),
            mask: self.general.read(rj),
        })
    }

    pub(crate) fn invtlb(&self, op: u32, rj: Reg, rk: Reg) -> Action
        ensures { result ≡ invtlb self.now op rj rk }
    {
        Action::Privileged(PrivilegedAction::Invtlb {
            op,
            asid_word: self.general.read(rj),
            address: self.general.read(rk),
        })
    }

    pub(crate) fn cacop(&self, code: Field<5>, rj: Reg, si12: Field<12>) -> Action
        ensures { result ≡ cacop self.now code rj si12 }
    {
        if is_hit(code) {
            let at = self.by_si12(rj, si12);
            Action::Probe { at }
        } else {
            Action::Privileged(PrivilegedAction::Cacop)
        }
    }
}
