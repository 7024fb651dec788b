// Calls made on any bus.
ghost use Rattle.std.specs.Prelude.{◌≡◌, IfOk, MatchResult};
ghost use Rattle.calls.specs.Calls.{answer_to, memory_after_call, answers_to, memory_through};
ghost use Rattle.calls.specs.Laws.{ByRule, writes, Lasting};

use crate::call::{Answer, Call};
use bus::Bus;
use std::alloc::{AllocError, Global};

// Makes one call.
pub fn perform<B: Bus>(bus: &mut B, call: Call) -> Answer
    ensures answer { result ≡ answer_to (B.byte bus.old) call }
    ensures after { B.byte bus.new ≡ memory_after_call (B.byte bus.old) call }
    ensures kept { B.layout bus.new ≡ B.layout bus.old }
    ensures rule { ByRule (B.byte bus.old) call result (B.byte bus.new) }
{
    match call {
        Call::Read(access) => Answer::Read(bus.read(access)),
        Call::Write { access, value } => Answer::Write(bus.write(access, value)),
    }
}

// Makes the calls in their order. Where there is no memory for the answers, none is made.
pub fn perform_all<B: Bus>(
    alloc: Global,
    bus: &mut B,
    calls: &[Call],
) -> Result<Vec<Answer>, AllocError>
    ensures answers { IfOk result (λ v. v.items ≡ answers_to (B.byte bus.old) calls.now) }
    ensures after { MatchResult result (λ _. B.byte bus.new ≡ memory_through (B.byte bus.old) calls.now) (λ _. B.byte bus.new ≡ B.byte bus.old) }
    ensures kept { B.layout bus.new ≡ B.layout bus.old }
    ensures lasting { Lasting (B.byte bus.old) (writes calls.now) (B.byte bus.new) }
{
    let mut answers = Vec::with_capacity(alloc, calls.len())?;
    for call in calls {
        let answer = perform(bus, *call);
        answers.push_reserved(answer);
    }
    Ok(answers)
}
