// The mnemonics of the operations that share a form.
ghost use Rattle.std.specs.Prelude.{◌≡◌, ℕ, List};
ghost use Rattle.assembly.specs.Names.{counter_name, register_name, shift_name, immediate_name, tlb_name, upper_name, load_name, store_name, branch_name};

use isa::{
    BranchOp, CounterHalf, ImmediateOp, LoadOp, RegisterOp, ShiftOp, StoreOp, TlbOp, UpperOp,
};

pub(crate) trait Mnemonic {
    ghost name: { Self → List ℕ };

    fn mnemonic(self) -> &'static str
        ensures { result.now ≡ name self };
}

impl Mnemonic for CounterHalf {
    ghost name = { counter_name };

    fn mnemonic(self) -> &'static str {
        match self {
            CounterHalf::Low => "rdcntvl.w",
            CounterHalf::High => "rdcntvh.w",
        }
    }
}

impl Mnemonic for RegisterOp {
    ghost name = { register_name };

    fn mnemonic(self) -> &'static str {
        match self {
            RegisterOp::AddW => "add.w",
            RegisterOp::SubW => "sub.w",
            RegisterOp::Slt => "slt",
            RegisterOp::Sltu => "sltu",
            RegisterOp::Nor => "nor",
            RegisterOp::And => "and",
            RegisterOp::Or => "or",
            RegisterOp::Xor => "xor",
            RegisterOp::SllW => "sll.w",
            RegisterOp::SrlW => "srl.w",
            RegisterOp::SraW => "sra.w",
            RegisterOp::MulW => "mul.w",
            RegisterOp::MulhW => "mulh.w",
            RegisterOp::MulhWu => "mulh.wu",
            RegisterOp::DivW => "div.w",
            RegisterOp::ModW => "mod.w",
            RegisterOp::DivWu => "div.wu",
            RegisterOp::ModWu => "mod.wu",
        }
    }
}

impl Mnemonic for ShiftOp {
    ghost name = { shift_name };

    fn mnemonic(self) -> &'static str {
        match self {
            ShiftOp::SlliW => "slli.w",
            ShiftOp::SrliW => "srli.w",
            ShiftOp::SraiW => "srai.w",
        }
    }
}

impl Mnemonic for ImmediateOp {
    ghost name = { immediate_name };

    fn mnemonic(self) -> &'static str {
        match self {
            ImmediateOp::Slti => "slti",
            ImmediateOp::Sltui => "sltui",
            ImmediateOp::AddiW => "addi.w",
            ImmediateOp::Andi => "andi",
            ImmediateOp::Ori => "ori",
            ImmediateOp::Xori => "xori",
        }
    }
}

impl Mnemonic for TlbOp {
    ghost name = { tlb_name };

    fn mnemonic(self) -> &'static str {
        match self {
            TlbOp::Tlbsrch => "tlbsrch",
            TlbOp::Tlbrd => "tlbrd",
            TlbOp::Tlbwr => "tlbwr",
            TlbOp::Tlbfill => "tlbfill",
        }
    }
}

impl Mnemonic for UpperOp {
    ghost name = { upper_name };

    fn mnemonic(self) -> &'static str {
        match self {
            UpperOp::Lu12iW => "lu12i.w",
            UpperOp::Pcaddu12i => "pcaddu12i",
        }
    }
}

impl Mnemonic for LoadOp {
    ghost name = { load_name };

    fn mnemonic(self) -> &'static str {
        match self {
            LoadOp::LdB => "ld.b",
            LoadOp::LdH => "ld.h",
            LoadOp::LdW => "ld.w",
            LoadOp::LdBu => "ld.bu",
            LoadOp::LdHu => "ld.hu",
        }
    }
}

impl Mnemonic for StoreOp {
    ghost name = { store_name };

    fn mnemonic(self) -> &'static str {
        match self {
            StoreOp::StB => "st.b",
            StoreOp::StH => "st.h",
            StoreOp::StW => "st.w",
        }
    }
}

impl Mnemonic for BranchOp {
    ghost name = { branch_name };

    fn mnemonic(self) -> &'static str {
        match self {
            BranchOp::Beq => "beq",
            BranchOp::Bne => "bne",
            BranchOp::Blt => "blt",
            BranchOp::Bge => "bge",
            BranchOp::Bltu => "bltu",
            BranchOp::Bgeu => "bgeu",
        }
    }
}
