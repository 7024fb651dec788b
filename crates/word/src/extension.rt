// Fields and loaded values, widened to words.
ghost use Rattle.std.specs.Prelude.{◌≡◌};
ghost use Rattle.word.specs.Word.{sign_extend, zero_extend, sign_extend_times4, upper20};

use crate::arithmetic::{shift_left, shift_right_signed};

#[tactic(auto, using(crate::proofs::Extending::sign_extend_by_shifts))]
pub fn sign_extend<const N: u32>(value: u32) -> u32
    ensures { result ≡ sign_extend N value }
{
    // A shift's amount is taken modulo 32, so one by 32 would keep the whole word.
    if N == 0 {
        return 0;
    }
    let spare = 32u32.saturating_sub(N);
    shift_right_signed(shift_left(value, spare), spare)
}

#[tactic(auto, using(crate::proofs::Extending::zero_extend_wide))]
pub fn zero_extend<const N: u32>(value: u32) -> u32
    ensures { result ≡ zero_extend N value }
{
    if N < 32 { value % (1 << N) } else { value }
}

// The field counts words, and the offset is in bytes.
#[tactic(auto, using(crate::proofs::Extending::sign_extend_scaled))]
pub fn offset<const N: u32>(value: u32) -> u32
    ensures { result ≡ sign_extend_times4 N value }
{
    shift_left(sign_extend::<N>(value), 2)
}

pub fn upper_20(value: u32) -> u32
    ensures { result ≡ upper20 value }
{
    shift_left(value, 12)
}
