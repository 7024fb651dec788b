// The instructions, grouped by the form of their words, with every field that a word carries.
use crate::field::Field;
use crate::least_register::RegFrom;
use crate::register::Reg;

#[derive(Clone, Copy, PartialEq, Eq, Debug)]
pub enum CounterHalf {
    Low,
    High,
}

#[derive(Clone, Copy, PartialEq, Eq, Debug)]
pub enum RegisterOp {
    AddW,
    SubW,
    Slt,
    Sltu,
    Nor,
    And,
    Or,
    Xor,
    SllW,
    SrlW,
    SraW,
    MulW,
    MulhW,
    MulhWu,
    DivW,
    ModW,
    DivWu,
    ModWu,
}

#[derive(Clone, Copy, PartialEq, Eq, Debug)]
pub enum ShiftOp {
    SlliW,
    SrliW,
    SraiW,
}

#[derive(Clone, Copy, PartialEq, Eq, Debug)]
pub enum ImmediateOp {
    Slti,
    Sltui,
    AddiW,
    Andi,
    Ori,
    Xori,
}

#[derive(Clone, Copy, PartialEq, Eq, Debug)]
pub enum TlbOp {
    Tlbsrch,
    Tlbrd,
    Tlbwr,
    Tlbfill,
}

#[derive(Clone, Copy, PartialEq, Eq, Debug)]
pub enum UpperOp {
    Lu12iW,
    Pcaddu12i,
}

#[derive(Clone, Copy, PartialEq, Eq, Debug)]
pub enum LoadOp {
    LdB,
    LdH,
    LdW,
    LdBu,
    LdHu,
}

#[derive(Clone, Copy, PartialEq, Eq, Debug)]
pub enum StoreOp {
    StB,
    StH,
    StW,
}

#[derive(Clone, Copy, PartialEq, Eq, Debug)]
pub enum BranchOp {
    Beq,
    Bne,
    Blt,
    Bge,
    Bltu,
    Bgeu,
}

#[derive(Clone, Copy, PartialEq, Eq, Debug)]
pub enum Instruction {
    Rdcntid {
        rj: RegFrom<1>,
    },
    Rdcntv {
        half: CounterHalf,
        rd: Reg,
    },
    Register {
        op: RegisterOp,
        rd: Reg,
        rj: Reg,
        rk: Reg,
    },
    Break {
        code: Field<15>,
    },
    Syscall {
        code: Field<15>,
    },
    Shift {
        op: ShiftOp,
        rd: Reg,
        rj: Reg,
        ui5: Field<5>,
    },
    Immediate {
        op: ImmediateOp,
        rd: Reg,
        rj: Reg,
        imm12: Field<12>,
    },
    Csrrd {
        rd: Reg,
        csr: Field<14>,
    },
    Csrwr {
        rd: Reg,
        csr: Field<14>,
    },
    Csrxchg {
        rd: Reg,
        rj: RegFrom<2>,
        csr: Field<14>,
    },
    Cacop {
        code: Field<5>,
        rj: Reg,
        si12: Field<12>,
    },
    Tlb {
        op: TlbOp,
    },
    Ertn,
    Idle {
        level: Field<15>,
    },
    Invtlb {
        op: Field<5>,
        rj: Reg,
        rk: Reg,
    },
    Upper {
        op: UpperOp,
        rd: Reg,
        si20: Field<20>,
    },
    Ll {
        rd: Reg,
        rj: Reg,
        si14: Field<14>,
    },
    Sc {
        rd: Reg,
        rj: Reg,
        si14: Field<14>,
    },
    Load {
        op: LoadOp,
        rd: Reg,
        rj: Reg,
        si12: Field<12>,
    },
    Store {
        op: StoreOp,
        rd: Reg,
        rj: Reg,
        si12: Field<12>,
    },
    Preld {
        hint: Field<5>,
        rj: Reg,
        si12: Field<12>,
    },
    Dbar {
        hint: Field<15>,
    },
    Ibar {
        hint: Field<15>,
    },
    Jirl {
        rd: Reg,
        rj: Reg,
        offs16: Field<16>,
    },
    B {
        offs26: Field<26>,
    },
    Bl {
        offs26: Field<26>,
    },
    Branch {
        op: BranchOp,
        rj: Reg,
        rd: Reg,
        offs16: Field<16>,
    },
}
