// Operands of an instruction's fields. Offsets that count words are shown in bytes.
ghost use Rattle.std.specs.Prelude.{◌≡◌, ◌≤◌};
ghost use Rattle.assembly.specs.declared.line.Operand.TheVariants.{Unsigned};
ghost use Rattle.assembly.specs.Lines.{immediate_operand, signed_field, words_field};

use crate::line::Operand;
use isa::{Field, ImmediateOp};

pub(crate) fn number<const N: u32>(field: Field<N>) -> Operand
    ensures { result ≡ Unsigned field.entry.value }
{
    Operand::Unsigned(field.value())
}

#[tactic(auto, using(crate::proofs::Extended::signed_field_is))]
pub(crate) fn signed<const N: u32>(field: Field<N>) -> Operand
    requires { N ≤ 32 }
    ensures { result ≡ signed_field N field.entry }
{
    Operand::Signed(word::sign_extend::<N>(field.value()).cast_signed())
}

#[tactic(auto, using(crate::proofs::Extended::words_field_is))]
pub(crate) fn words<const N: u32>(field: Field<N>) -> Operand
    requires { N ≤ 30 }
    ensures { result ≡ words_field N field.entry }
{
    Operand::Signed(word::offset::<N>(field.value()).cast_signed())
}

pub(crate) fn imm12(op: ImmediateOp, field: Field<12>) -> Operand
    ensures { result ≡ immediate_operand op field }
{
    match op {
        ImmediateOp::Slti | ImmediateOp::Sltui | ImmediateOp::AddiW => signed(field),
        ImmediateOp::Andi | ImmediateOp::Ori | ImmediateOp::Xori => number(field),
    }
}
