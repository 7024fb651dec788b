// Two machines, on buses of one kind or of two, given the same calls.
ghost use Rattle.std.specs.Prelude.{◌≡◌, IfOk, IfErr};
ghost use Rattle.machine.specs.Outcomes.{outcome};
ghost use Rattle.machine.specs.State.{reset_state};
ghost use Rattle.driver.specs.Calls.{drive_of, AllFetchNothing};
ghost use Rattle.driver.specs.Isolation.{Isolated, AllConfined};

use crate::call::{Answer, Call};
use crate::one_machine::perform;
use bus::Bus;
use machine::RunningCore;
use std::alloc::{AllocError, Global};

// Resets both cores and gives both machines the calls, each to the one and then to the other. Where there is no memory for the
// answers, nothing is done.
#[tactic(auto, using(crate::proofs::Driving::all_confined))]
pub fn lockstep<A: Bus, B: Bus>(
    alloc: Global,
    left: &mut RunningCore,
    left_bus: &mut A,
    right: &mut RunningCore,
    right_bus: &mut B,
    calls: &[Call],
) -> Result<(Vec<Answer>, Vec<Answer>), AllocError>
    ensures left { IfOk result (λ both. outcome both.0.items left.new (A.byte left_bus.new) ≡ drive_of reset_state (A.byte left_bus.old) calls.now) }
    ensures right { IfOk result (λ both. outcome both.1.items right.new (B.byte right_bus.new) ≡ drive_of reset_state (B.byte right_bus.old) calls.now) }
    ensures unmade_left { IfErr result (λ _. (left.new ≡ left.old) × (A.byte left_bus.new ≡ A.byte left_bus.old)) }
    ensures unmade_right { IfErr result (λ _. (right.new ≡ right.old) × (B.byte right_bus.new ≡ B.byte right_bus.old)) }
    ensures left_kept { A.layout left_bus.new ≡ A.layout left_bus.old }
    ensures right_kept { B.layout right_bus.new ≡ B.layout right_bus.old }
    ensures left_untouched { AllFetchNothing calls.now reset_state (A.byte left_bus.old) → left_bus.new ≡ left_bus.old }
    ensures right_untouched { AllFetchNothing calls.now reset_state (B.byte right_bus.old) → right_bus.new ≡ right_bus.old }

    // The isolation theorem: what both machines come to, and each step of either.
    ensures isolated { IfOk result (λ both. Isolated calls.now reset_state (A.byte left_bus.old) (B.byte right_bus.old) (outcome both.0.items left.new (A.byte left_bus.new)) (outcome both.1.items right.new (B.byte right_bus.new))) }
    ensures left_confined { AllConfined calls.now reset_state (A.byte left_bus.old) }
    ensures right_confined { AllConfined calls.now reset_state (B.byte right_bus.old) }
{
    let mut left_answers = Vec::with_capacity(alloc, calls.len())?;
    let mut right_answers = Vec::with_capacity(alloc, calls.len())?;
    left.reset();
    right.reset();
    for call in calls {
        let answer = perform(left, left_bus, *call);
        left_answers.push_reserved(answer);
        let answer = perform(right, right_bus, *call);
        right_answers.push_reserved(answer);
    }
    Ok((left_answers, right_answers))
}
