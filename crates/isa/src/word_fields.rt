// The fields of a word.
ghost use Rattle.std.specs.Prelude.{◌≡◌, ◌/◌, ◌%◌, ◌^◌, ◌<◌};
ghost use Rattle.isa.specs.Fields.{reg_of, reg_from_of, field_of, offs26_of};

use crate::field::Field;
use crate::least_register::RegFrom;
use crate::register::Reg;

pub(crate) fn rd(word: u32) -> Reg
    ensures { result ≡ reg_of word }
{
    Reg::of_low_bits(word)
}

pub(crate) fn rj(word: u32) -> Reg
    ensures { result ≡ reg_of (word / 2 ^ 5) }
{
    Reg::of_low_bits(word >> 5)
}

pub(crate) fn rk(word: u32) -> Reg
    ensures { result ≡ reg_of (word / 2 ^ 10) }
{
    Reg::of_low_bits(word >> 10)
}

// The definition takes the fact that LEAST is a register's number, here by the name `fits`.
pub(crate) fn rj_from<const LEAST: u32>(word: u32) -> RegFrom<LEAST>
    requires { LEAST < 32 }
    ensures { (fits : LEAST < 32) → result ≡ reg_from_of LEAST fits (word / 2 ^ 5) }
{
    RegFrom::of_low_bits(word >> 5)
}

// The lowest N bits.
pub(crate) fn low_bits<const N: u32>(word: u32) -> Field<N>
    requires { N < 32 }
    ensures { result ≡ field_of N word }
{
    Field {
        value: word % (1 << N),
    }
}

// The offset of B and BL: its highest ten bits are the word's lowest.
pub(crate) fn offs26(word: u32) -> Field<26>
    ensures { result ≡ offs26_of word }
{
    Field {
        value: word % 0x400 * 0x1_0000 + (word >> 10) % 0x1_0000,
    }
}
