// Decoding. The definition (`by_highest_bits`) goes by a word's six highest bits first. The code looks at the ten highest first (`by_ten_bits`): they tell
// arithmetic, loads and stores, which programs mostly do, by one jump through a table, where six bits and then ten take two. What they leave goes by
// six (`by_six_bits`). Rows that share these bits are told apart by lower ones, in a function for each group.
ghost use Rattle.std.specs.Prelude.{◌≡◌, ◌/◌, ◌%◌, ◌^◌, Some, None};
ghost use Rattle.isa.specs.Table.{Exact, HaveWords};
ghost use Rattle.isa.specs.Decoding.{counter_of, register_of, three_registers_of, shift_of, shifts_of, immediate_of, arithmetic_of, csr_of, whole_word_of, tlb_and_waiting_of, system_of, upper_of, atomic_of, load_of, store_of, memory_of, barrier_of, branch_of, by_highest_bits, decode_of};

use crate::instruction::{
    BranchOp, CounterHalf, ImmediateOp, Instruction, LoadOp, RegisterOp, ShiftOp, StoreOp, TlbOp,
    UpperOp,
};
use crate::word_fields::{low_bits, offs26, rd, rj, rj_from, rk};

fn counter(word: u32) -> Option<Instruction>
    ensures { result ≡ counter_of (word / 2 ^ 10) word }
{
    match word >> 10 {
        0x18 if (word >> 5) % 32 == 0 => Some(Instruction::Rdcntv {
            half: CounterHalf::Low,
            rd: rd(word),
        }),
        0x18 if word % 32 == 0 => Some(Instruction::Rdcntid { rj: rj_from(word) }),
        0x19 if (word >> 5) % 32 == 0 => Some(Instruction::Rdcntv {
            half: CounterHalf::High,
            rd: rd(word),
        }),
        _ => None,
    }
}

fn register(op: RegisterOp, word: u32) -> Instruction
    ensures { Some result ≡ register_of op word }
{
    Instruction::Register {
        op,
        rd: rd(word),
        rj: rj(word),
        rk: rk(word),
    }
}

fn three_registers(word: u32) -> Option<Instruction>
    ensures { result ≡ three_registers_of (word / 2 ^ 15) word }
{
    match word >> 15 {
        0x00 => counter(word),
        0x20 => Some(register(RegisterOp::AddW, word)),
        0x22 => Some(register(RegisterOp::SubW, word)),
        0x24 => Some(register(RegisterOp::Slt, word)),
        0x25 => Some(register(RegisterOp::Sltu, word)),
        0x28 => Some(register(RegisterOp::Nor, word)),
        0x29 => Some(register(RegisterOp::And, word)),
        0x2a => Some(register(RegisterOp::Or, word)),
        0x2b => Some(register(RegisterOp::Xor, word)),
        0x2e => Some(register(RegisterOp::SllW, word)),
        0x2f => Some(register(RegisterOp::SrlW, word)),
        0x30 => Some(register(RegisterOp::SraW, word)),
        0x38 => Some(register(RegisterOp::MulW, word)),
        0x39 => Some(register(RegisterOp::MulhW, word)),
        0x3a => Some(register(RegisterOp::MulhWu, word)),
        0x40 => Some(register(RegisterOp::DivW, word)),
        0x41 => Some(register(RegisterOp::ModW, word)),
        0x42 => Some(register(RegisterOp::DivWu, word)),
        0x43 => Some(register(RegisterOp::ModWu, word)),
        0x54 => Some(Instruction::Break {
            code: low_bits(word),
        }),
        0x56 => Some(Instruction::Syscall {
            code: low_bits(word),
        }),
        _ => None,
    }
}

fn shift(op: ShiftOp, word: u32) -> Instruction
    ensures { Some result ≡ shift_of op word }
{
    Instruction::Shift {
        op,
        rd: rd(word),
        rj: rj(word),
        ui5: low_bits(word >> 10),
    }
}

fn shifts(word: u32) -> Option<Instruction>
    ensures { result ≡ shifts_of (word / 2 ^ 15) word }
{
    match word >> 15 {
        0x81 => Some(shift(ShiftOp::SlliW, word)),
        0x89 => Some(shift(ShiftOp::SrliW, word)),
        0x91 => Some(shift(ShiftOp::SraiW, word)),
        _ => None,
    }
}

fn immediate(op: ImmediateOp, word: u32) -> Instruction
    ensures { Some result ≡ immediate_of op word }
{
    Instruction::Immediate {
        op,
        rd: rd(word),
        rj: rj(word),
        imm12: low_bits(word >> 10),
    }
}

fn csr(word: u32) -> Instruction
    ensures { result ≡ csr_of (word / 2 ^ 5 % 32) word }
{
    let csr = low_bits(word >> 10);
    match (word >> 5) % 32 {
        0 => Instruction::Csrrd { rd: rd(word), csr },
        1 => Instruction::Csrwr { rd: rd(word), csr },
        _ => Instruction::Csrxchg {
            rd: rd(word),
            rj: rj_from(word),
            csr,
        },
    }
}

fn whole_word(word: u32) -> Option<Instruction>
    ensures { result ≡ whole_word_of word }
{
    match word {
        0x0648_2800 => Some(Instruction::Tlb { op: TlbOp::Tlbsrch }),
        0x0648_2c00 => Some(Instruction::Tlb { op: TlbOp::Tlbrd }),
        0x0648_3000 => Some(Instruction::Tlb { op: TlbOp::Tlbwr }),
        0x0648_3400 => Some(Instruction::Tlb { op: TlbOp::Tlbfill }),
        0x0648_3800 => Some(Instruction::Ertn),
        _ => None,
    }
}

fn tlb_and_waiting(word: u32) -> Option<Instruction>
    ensures { result ≡ tlb_and_waiting_of (word / 2 ^ 15) word }
{
    match word >> 15 {
        0xc90 => whole_word(word),
        0xc91 => Some(Instruction::Idle {
            level: low_bits(word),
        }),
        0xc93 => Some(Instruction::Invtlb {
            op: low_bits(word),
            rj: rj(word),
            rk: rk(word),
        }),
        _ => None,
    }
}

fn upper(word: u32) -> Option<Instruction>
    ensures { result ≡ upper_of (word / 2 ^ 25) word }
{
    let si20 = low_bits(word >> 5);
    match word >> 25 {
        0x0a => Some(Instruction::Upper {
            op: UpperOp::Lu12iW,
            rd: rd(word),
            si20,
        }),
        0x0e => Some(Instruction::Upper {
            op: UpperOp::Pcaddu12i,
            rd: rd(word),
            si20,
        }),
        _ => None,
    }
}

fn atomic(word: u32) -> Option<Instruction>
    ensures { result ≡ atomic_of (word / 2 ^ 24) word }
{
    let si14 = low_bits(word >> 10);
    match word >> 24 {
        0x20 => Some(Instruction::Ll {
            rd: rd(word),
            rj: rj(word),
            si14,
        }),
        0x21 => Some(Instruction::Sc {
            rd: rd(word),
            rj: rj(word),
            si14,
        }),
        _ => None,
    }
}

fn load(op: LoadOp, word: u32) -> Instruction
    ensures { Some result ≡ load_of op word }
{
    Instruction::Load {
        op,
        rd: rd(word),
        rj: rj(word),
        si12: low_bits(word >> 10),
    }
}

fn store(op: StoreOp, word: u32) -> Instruction
    ensures { Some result ≡ store_of op word }
{
    Instruction::Store {
        op,
        rd: rd(word),
        rj: rj(word),
        si12: low_bits(word >> 10),
    }
}

fn barrier(word: u32) -> Option<Instruction>
    ensures { result ≡ barrier_of (word / 2 ^ 15) word }
{
    match word >> 15 {
        0x70e4 => Some(Instruction::Dbar {
            hint: low_bits(word),
        }),
        0x70e5 => Some(Instruction::Ibar {
            hint: low_bits(word),
        }),
        _ => None,
    }
}

fn branch(op: BranchOp, word: u32) -> Instruction
    ensures { Some result ≡ branch_of op word }
{
    Instruction::Branch {
        op,
        rj: rj(word),
        rd: rd(word),
        offs16: low_bits(word >> 10),
    }
}

// The rest of the table, by the six highest bits, for a word that no arm of `by_ten_bits` takes. The definition leads six bits of 0x00, 0x01 and 0x0a on to
// arithmetic, the system and memory. Every row of these three is an arm of `by_ten_bits`, so none of them has this word: that is what the conditions say,
// and why those six bits come to `_` here.
fn by_six_bits(word: u32) -> Option<Instruction>
    requires arithmetic { arithmetic_of (word / 2 ^ 22) word ≡ None }
    requires system { system_of (word / 2 ^ 24) word ≡ None }
    requires memory { memory_of (word / 2 ^ 22) word ≡ None }
    ensures { result ≡ by_highest_bits (word / 2 ^ 26) word }
{
    match word >> 26 {
        0x05 | 0x07 => upper(word),
        0x08 => atomic(word),
        0x0e => barrier(word),
        0x13 => Some(Instruction::Jirl {
            rd: rd(word),
            rj: rj(word),
            offs16: low_bits(word >> 10),
        }),
        0x14 => Some(Instruction::B {
            offs26: offs26(word),
        }),
        0x15 => Some(Instruction::Bl {
            offs26: offs26(word),
        }),
        0x16 => Some(branch(BranchOp::Beq, word)),
        0x17 => Some(branch(BranchOp::Bne, word)),
        0x18 => Some(branch(BranchOp::Blt, word)),
        0x19 => Some(branch(BranchOp::Bge, word)),
        0x1a => Some(branch(BranchOp::Bltu, word)),
        0x1b => Some(branch(BranchOp::Bgeu, word)),
        _ => None,
    }
}

// Arithmetic, the system's instructions, and loads and stores but for LL.W and SC.W, by the ten highest bits: one jump finds what programs mostly do.
fn by_ten_bits(word: u32) -> Option<Instruction>
    ensures { result ≡ by_highest_bits (word / 2 ^ 26) word }
{
    match word >> 22 {
        0x00 => three_registers(word),
        0x01 => shifts(word),
        0x08 => Some(immediate(ImmediateOp::Slti, word)),
        0x09 => Some(immediate(ImmediateOp::Sltui, word)),
        0x0a => Some(immediate(ImmediateOp::AddiW, word)),
        0x0d => Some(immediate(ImmediateOp::Andi, word)),
        0x0e => Some(immediate(ImmediateOp::Ori, word)),
        0x0f => Some(immediate(ImmediateOp::Xori, word)),
        // CSRRD, CSRWR and CSRXCHG have eight fixed bits. The other two of the ten are the highest of the control register's number, so they may be anything.
        0x10 | 0x11 | 0x12 | 0x13 => Some(csr(word)),
        0x18 => Some(Instruction::Cacop {
            code: low_bits(word),
            rj: rj(word),
            si12: low_bits(word >> 10),
        }),
        0x19 => tlb_and_waiting(word),
        0xa0 => Some(load(LoadOp::LdB, word)),
        0xa1 => Some(load(LoadOp::LdH, word)),
        0xa2 => Some(load(LoadOp::LdW, word)),
        0xa4 => Some(store(StoreOp::StB, word)),
        0xa5 => Some(store(StoreOp::StH, word)),
        0xa6 => Some(store(StoreOp::StW, word)),
        0xa8 => Some(load(LoadOp::LdBu, word)),
        0xa9 => Some(load(LoadOp::LdHu, word)),
        0xab => Some(Instruction::Preld {
            hint: low_bits(word),
            rj: rj(word),
            si12: low_bits(word >> 10),
        }),
        _ => by_six_bits(word),
    }
}

// The instruction whose word this is, or nothing: a word of no row of the table is undefined.
#[tactic(auto, using(crate::proofs::Law::exact), unfolding(crate::specs::Decoding::decode_of))]
pub fn decode(word: u32) -> Option<Instruction>
    ensures exact { Exact word result }
    ensures words { HaveWords }
    ensures value { result ≡ decode_of word }
{
    by_ten_bits(word)
}
