// The line of an instruction.
ghost use Rattle.std.specs.Prelude.{◌≡◌};
ghost use Rattle.assembly.specs.declared.line.Operand.TheVariants.{Gpr, Unsigned};
ghost use Rattle.assembly.specs.declared.line.Operands.TheVariants.{Three};
ghost use Rattle.assembly.specs.Lines.{signed_field, line_of};

use crate::line::Operand::{Csr, Gpr};
use crate::line::Operands::{One, Three, Two};
use crate::line::{Line, Operand, Operands};
use crate::names::Mnemonic;
use crate::operand;
use isa::{Field, Instruction, Reg};

fn mnemonic_of(instruction: Instruction) -> &'static str
    ensures { result.now ≡ (line_of instruction).0 }
{
    match instruction {
        Instruction::Rdcntid { .. } => "rdcntid.w",
        Instruction::Rdcntv { half, .. } => half.mnemonic(),
        Instruction::Register { op, .. } => op.mnemonic(),
        Instruction::Break { .. } => "break",
        Instruction::Syscall { .. } => "syscall",
        Instruction::Shift { op, .. } => op.mnemonic(),
        Instruction::Immediate { op, .. } => op.mnemonic(),
        Instruction::Csrrd { .. } => "csrrd",
        Instruction::Csrwr { .. } => "csrwr",
        Instruction::Csrxchg { .. } => "csrxchg",
        Instruction::Cacop { .. } => "cacop",
        Instruction::Tlb { op } => op.mnemonic(),
        Instruction::Ertn => "ertn",
        Instruction::Idle { .. } => "idle",
        Instruction::Invtlb { .. } => "invtlb",
        Instruction::Upper { op, .. } => op.mnemonic(),
        Instruction::Ll { .. } => "ll.w",
        Instruction::Sc { .. } => "sc.w",
        Instruction::Load { op, .. } => op.mnemonic(),
        Instruction::Store { op, .. } => op.mnemonic(),
        Instruction::Preld { .. } => "preld",
        Instruction::Dbar { .. } => "dbar",
        Instruction::Ibar { .. } => "ibar",
        Instruction::Jirl { .. } => "jirl",
        Instruction::B { .. } => "b",
        Instruction::Bl { .. } => "bl",
        Instruction::Branch { op, .. } => op.mnemonic(),
    }
}

fn registers_and(a: Reg, b: Reg, c: Operand) -> Operands
    ensures { result ≡ Three (Gpr a) (Gpr b) c }
{
    Three(Gpr(a), Gpr(b), c)
}

fn code_and_address(code: Field<5>, rj: Reg, si12: Field<12>) -> Operands
    ensures { result ≡ Three (Unsigned code.value) (Gpr rj) (signed_field 12 si12) }
{
    Three(operand::number(code), Gpr(rj), operand::signed(si12))
}

fn operands_of(instruction: Instruction) -> Operands
    ensures { result ≡ (line_of instruction).1 }
{
    match instruction {
        Instruction::Rdcntid { rj } => One(Gpr(rj.reg())),
        Instruction::Rdcntv { rd, .. } => One(Gpr(rd)),
        Instruction::Register { rd, rj, rk, .. } => registers_and(rd, rj, Gpr(rk)),
        Instruction::Break { code } | Instruction::Syscall { code } => One(operand::number(code)),
        Instruction::Shift { rd, rj, ui5, .. } => registers_and(rd, rj, operand::number(ui5)),
        Instruction::Immediate { op, rd, rj, imm12 } => registers_and(
            rd,
            rj,
            operand::imm12(op, imm12),
        ),
        Instruction::Csrrd { rd, csr } | Instruction::Csrwr { rd, csr } => Two(Gpr(rd), Csr(csr)),
        Instruction::Csrxchg { rd, rj, csr } => registers_and(rd, rj.reg(), Csr(csr)),
        Instruction::Cacop { code, rj, si12 } => code_and_address(code, rj, si12),
        Instruction::Tlb { .. } | Instruction::Ertn => Operands::None,
        Instruction::Idle { level } => One(operand::number(level)),
        Instruction::Invtlb { op, rj, rk } => Three(operand::number(op), Gpr(rj), Gpr(rk)),
        Instruction::Upper { rd, si20, .. } => Two(Gpr(rd), operand::signed(si20)),
        Instruction::Ll { rd, rj, si14 } | Instruction::Sc { rd, rj, si14 } => {
            registers_and(rd, rj, operand::words(si14))
        }
        Instruction::Load { rd, rj, si12, .. } | Instruction::Store { rd, rj, si12, .. } => {
            registers_and(rd, rj, operand::signed(si12))
        }
        Instruction::Preld { hint, rj, si12 } => code_and_address(hint, rj, si12),
        Instruction::Dbar { hint } | Instruction::Ibar { hint } => One(operand::number(hint)),
        Instruction::Jirl { rd, rj, offs16 } => registers_and(rd, rj, operand::words(offs16)),
        Instruction::B { offs26 } | Instruction::Bl { offs26 } => One(operand::words(offs26)),
        Instruction::Branch { rj, rd, offs16, .. } => registers_and(rj, rd, operand::words(offs16)),
    }
}

impl From<Instruction> for Line {
    ghost from_gives = { λ i line. record {
      mnemonic : line.mnemonic.now ≡ (line_of i).0;
      operands : line.operands ≡ (line_of i).1;
    } };

    fn from(instruction: Instruction) -> Line {
        Line {
            mnemonic: mnemonic_of(instruction),
            operands: operands_of(instruction),
        }
    }
}
