// Which instructions PLV3 may not use.
ghost use Rattle.std.specs.Prelude.{◌≡◌};
ghost use Rattle.isa.specs.Privilege.{privileged, hit};

use crate::field::Field;
use crate::instruction::Instruction;

// Whether a CACOP is of the Hit kind.
pub fn is_hit(code: Field<5>) -> bool
    ensures { result ≡ hit code }
{
    code.value() / 8 == 2
}

impl Instruction {
    // Whether it raises the exception IPE in PLV3.
    pub fn is_privileged(self) -> bool
        ensures { result ≡ privileged self }
    {
        match self {
            Instruction::Csrrd { .. }
            | Instruction::Csrwr { .. }
            | Instruction::Csrxchg { .. }
            | Instruction::Tlb { .. }
            | Instruction::Ertn
            | Instruction::Idle { .. }
            | Instruction::Invtlb { .. } => true,
            Instruction::Cacop { code, .. } => !is_hit(code),
            _ => false,
        }
    }
}
