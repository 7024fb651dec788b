// Which action each instruction means.
ghost use Rattle.std.specs.Prelude.{◌≡◌};
ghost use Rattle.isa.specs.Privilege.{privileged};
ghost use Rattle.actions.specs.Plan.{plan, is_privileged};

use crate::action::{Action, PrivilegedAction};
use crate::forms::{counter_half, csrrd};
use crate::registers::return_register;
use crate::user::UserState;
use csr::{Exception, Timer};
use isa::Instruction as In;

impl UserState {
    // What the instruction asks for, by the registers and the time that every program sees.
    pub fn plan(&self, timer: &Timer, instruction: In) -> Action
        ensures value { result ≡ plan self.now timer.now instruction }
        ensures privilege { is_privileged result ≡ privileged instruction }
    {
        match instruction {
            In::Rdcntid { rj } => self.result_action(rj.reg(), timer.tid),
            In::Rdcntv { half, rd } => self.result_action(rd, counter_half(half, timer)),
            In::Register { op, rd, rj, rk } => self.register(op, rd, rj, rk),
            In::Break { .. } => Action::Raise(Exception::Brk),
            In::Syscall { .. } => Action::Raise(Exception::Sys),
            In::Shift { op, rd, rj, ui5 } => self.shift(op, rd, rj, ui5),
            In::Immediate { op, rd, rj, imm12 } => self.immediate(op, rd, rj, imm12),
            In::Csrrd { rd, csr } => csrrd(rd, csr.value()),
            In::Csrwr { rd, csr } => self.csrwr(rd, csr.value()),
            In::Csrxchg { rd, rj, csr } => self.csrxchg(rd, rj.reg(), csr.value()),
            In::Cacop { code, rj, si12 } => self.cacop(code, rj, si12),
            In::Tlb { op } => Action::Privileged(PrivilegedAction::Tlb(op)),
            In::Ertn => Action::Privileged(PrivilegedAction::Ertn),
            In::Idle { .. } => Action::Privileged(PrivilegedAction::Idle),
            In::Invtlb { op, rj, rk } => self.invtlb(op.value(), rj, rk),
            In::Upper { op, rd, si20 } => self.upper(op, rd, si20),
            In::Ll { rd, rj, si14 } => self.ll(rd, rj, si14),
            In::Sc { rd, rj, si14 } => self.sc(rd, rj, si14),
            In::Load { op, rd, rj, si12 } => self.load(op, rd, rj, si12),
            In::Store { op, rd, rj, si12 } => self.store(op, rd, rj, si12),
            In::Preld { .. } | In::Dbar { .. } | In::Ibar { .. } => self.nop(),
            In::Jirl { rd, rj, offs16 } => self.jump_and_link(rd, self.by_offs16(rj, offs16)),
            In::B { offs26 } => self.jump(offs26),
            In::Bl { offs26 } => self.jump_and_link(return_register(), self.from_pc(offs26)),
            In::Branch { op, rj, rd, offs16 } => self.branch(op, rj, rd, offs16),
        }
    }
}
