// A call on memory that the caller keeps.
ghost use Rattle.std.specs.Prelude.{◌≡◌};
ghost use Rattle.parts.specs.Parts.{bank_cells};
ghost use Rattle.calls.specs.Calls.{answer_to, memory_after_call};
ghost use Rattle.calls.specs.Laws.{GivenBack};

use crate::any_bus::perform;
use crate::call::{Answer, Call};
use bus::{Bus, PhysAddr};
use parts::Bank;

// Makes the call on a bank that has `memory` at `base` for this one call, so that its caller knows what the memory holds
// afterwards.
pub fn perform_in_memory(base: PhysAddr, memory: &mut [u8], call: Call) -> Answer
    ensures answer { result ≡ answer_to (bank_cells base.0 memory.old) call }
    ensures after { bank_cells base.0 memory.new ≡ memory_after_call (bank_cells base.0 memory.old) call }
    ensures bytes { GivenBack base.0 memory.old (memory_after_call (bank_cells base.0 memory.old) call) memory.new }
{
    let mut bank = Bank::new(base, memory);
    perform(&mut bank, call)
}
