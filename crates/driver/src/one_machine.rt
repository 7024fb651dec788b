// One machine, a core on any bus, given calls.
ghost use Rattle.std.specs.Prelude.{◌≡◌, IfOk, IfErr};
ghost use Rattle.machine.specs.Outcomes.{outcome};
ghost use Rattle.driver.specs.Calls.{perform_of, drive_of, CallFetchesNothing, AllFetchNothing};
ghost use Rattle.driver.specs.Isolation.{AllConfined, DriveIsolated};

use crate::call::{Answer, Call};
use bus::Bus;
use machine::RunningCore;
use std::alloc::{AllocError, Global};

// Makes one call.
pub fn perform<B: Bus>(core: &mut RunningCore, bus: &mut B, call: Call) -> Answer
    ensures value { outcome result core.new (B.byte bus.new) ≡ perform_of core.old (B.byte bus.old) call }
    ensures kept { B.layout bus.new ≡ B.layout bus.old }

    // A call of which no step fetches leaves the bus alone, with all that it keeps for itself.
    ensures untouched { CallFetchesNothing call core.old (B.byte bus.old) → bus.new ≡ bus.old }
{
    match call {
        Call::Reset => {
            core.reset();
            Answer::Reset
        }
        Call::Step { levels } => Answer::Step(core.step(bus, levels)),
        Call::Run { count, levels } => Answer::Run(core.run(bus, count, levels)),
        Call::Pc => Answer::Pc(core.pc()),
        Call::Register(number) => Answer::Register(core.register(number)),
        Call::ControlRegister(number) => Answer::ControlRegister(core.control_register(number)),
        Call::TlbEntry(number) => Answer::TlbEntry(core.tlb_entry(number)),
    }
}

// Makes the calls in their order. Where there is no memory for the answers, none is made.
#[tactic(auto, using(crate::proofs::Driving::all_confined))]
pub fn drive<B: Bus>(
    alloc: Global,
    core: &mut RunningCore,
    bus: &mut B,
    calls: &[Call],
) -> Result<Vec<Answer>, AllocError>
    ensures value { IfOk result (λ answers. outcome answers.items core.new (B.byte bus.new) ≡ drive_of core.old (B.byte bus.old) calls.now) }
    ensures unmade { IfErr result (λ _. (core.new ≡ core.old) × (B.byte bus.new ≡ B.byte bus.old)) }
    ensures kept { B.layout bus.new ≡ B.layout bus.old }
    ensures untouched { AllFetchNothing calls.now core.old (B.byte bus.old) → bus.new ≡ bus.old }
    ensures isolated { IfOk result (λ answers. DriveIsolated calls.now core.old (B.byte bus.old) (outcome answers.items core.new (B.byte bus.new))) }
    ensures confined { AllConfined calls.now core.old (B.byte bus.old) }
{
    let mut answers = Vec::with_capacity(alloc, calls.len())?;
    for call in calls {
        let answer = perform(core, bus, *call);
        answers.push_reserved(answer);
    }
    Ok(answers)
}
