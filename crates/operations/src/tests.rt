use crate::access::load_result;
use crate::result::{immediate_result, is_taken, register_result, shift_result, upper_result};
use isa::{Instruction, decode};
use std::process::Abort;

// Words with rd 5, rj 4 and rk 4, named by mnemonic and immediate.
const MULH_W: u32 = 0x001c_9085;

const MULH_WU: u32 = 0x001d_1085;

const DIV_W: u32 = 0x0020_1085;

const MOD_W: u32 = 0x0020_9085;

const SRA_W: u32 = 0x0018_1085;

const SLL_W: u32 = 0x0017_1085;

const SRAI_W_31: u32 = 0x0048_fc85;

const SLTUI_MINUS_1: u32 = 0x027f_fc85;

const SLTI_MINUS_1: u32 = 0x023f_fc85;

const ANDI_4095: u32 = 0x037f_fc85;

const PCADDU12I_0X80000: u32 = 0x1d00_0005;

const BLT: u32 = 0x6000_0085;

const BLTU: u32 = 0x6800_0085;

const LD_B: u32 = 0x2800_0085;

// What an instruction's word gives of GR[rj], and of GR[rk], GR[rd], the PC or a loaded value.
fn result_of(instruction: Instruction, rj: u32, other: u32) -> Option<u32> {
    match instruction {
        Instruction::Register { op, .. } => Some(register_result(op, rj, other)),
        Instruction::Shift { op, ui5, .. } => Some(shift_result(op, rj, ui5)),
        Instruction::Immediate { op, imm12, .. } => Some(immediate_result(op, rj, imm12)),
        Instruction::Upper { op, si20, .. } => Some(upper_result(op, other, si20)),
        Instruction::Branch { op, .. } => Some(u32::from(is_taken(op, rj, other))),
        Instruction::Load { op, .. } => Some(load_result(op, other)),
        _ => None,
    }
}

fn check_word(rt: &impl Abort, word: u32, rj: u32, other: u32, expected: u32) {
    let given = decode(word).and_then(|instruction| result_of(instruction, rj, other));
    assert_eq!(rt; given, Some(expected));
}

#[test]
fn products_and_quotients(rt: HostRuntime) {
    let minus_seven = 0xffff_fff9;
    check_word(&rt, MULH_W, 0xffff_ffff, 0xffff_ffff, 0);
    check_word(&rt, MULH_WU, 0xffff_ffff, 0xffff_ffff, 0xffff_fffe);
    check_word(&rt, DIV_W, minus_seven, 2, 0xffff_fffd);
    check_word(&rt, MOD_W, minus_seven, 2, 0xffff_ffff);
    check_word(&rt, DIV_W, 0x8000_0000, 0xffff_ffff, 0x8000_0000);
    check_word(&rt, MOD_W, 0x8000_0000, 0xffff_ffff, 0);
    check_word(&rt, DIV_W, 5, 0, 0xffff_ffff);
    check_word(&rt, MOD_W, 5, 0, 5);
}

#[test]
fn shifts_comparisons_and_extension(rt: HostRuntime) {
    check_word(&rt, SRA_W, 0x8000_0000, 33, 0xc000_0000);
    check_word(&rt, SLL_W, 1, 33, 2);
    check_word(&rt, SRAI_W_31, 0x8000_0000, 0, 0xffff_ffff);
    check_word(&rt, SLTUI_MINUS_1, 5000, 0, 1);
    check_word(&rt, SLTI_MINUS_1, 5000, 0, 0);
    check_word(&rt, ANDI_4095, 0xffff_ffff, 0, 0xfff);
    check_word(&rt, PCADDU12I_0X80000, 0, 0x1c00_0004, 0x9c00_0004);
    check_word(&rt, BLT, 0xffff_ffff, 0, 1);
    check_word(&rt, BLTU, 0xffff_ffff, 0, 0);
    check_word(&rt, LD_B, 0, 0x80, 0xffff_ff80);
}
