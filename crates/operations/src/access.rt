// Widths of loads and stores, and what a register gets of a loaded value.
ghost use Rattle.std.specs.Prelude.{◌≡◌};
ghost use Rattle.operations.specs.Operations.{load_width, load_result, store_width};

use isa::{LoadOp, StoreOp};
use word::{sign_extend, zero_extend};

pub fn load_width(op: LoadOp) -> u32
    ensures { result ≡ load_width op }
{
    match op {
        LoadOp::LdB | LoadOp::LdBu => 1,
        LoadOp::LdH | LoadOp::LdHu => 2,
        LoadOp::LdW => 4,
    }
}

pub fn load_result(op: LoadOp, value: u32) -> u32
    ensures { result ≡ load_result op value }
{
    match op {
        LoadOp::LdB => sign_extend::<8>(value),
        LoadOp::LdH => sign_extend::<16>(value),
        LoadOp::LdW => value,
        LoadOp::LdBu => zero_extend::<8>(value),
        LoadOp::LdHu => zero_extend::<16>(value),
    }
}

pub fn store_width(op: StoreOp) -> u32
    ensures { result ≡ store_width op }
{
    match op {
        StoreOp::StB => 1,
        StoreOp::StH => 2,
        StoreOp::StW => 4,
    }
}
