// One step, and as many as are asked for.
ghost use Rattle.std.specs.Prelude.{◌≡◌, false};
ghost use Rattle.csr.specs.Interrupts.{due};
ghost use Rattle.control.specs.Exceptions.{interrupted};
ghost use Rattle.machine.specs.Isolation.{LeadsNowhere, FetchesNothing};
ghost use Rattle.machine.specs.Laws.{NoStepFetches};
ghost use Rattle.machine.specs.Outcomes.{outcome};
ghost use Rattle.machine.specs.Step.{keeps_waiting, act, step, run_of};
ghost use Rattle.machine.specs.StepLoop.{report, Single};

use crate::answers::{Event, RunReport, StepRefusal};
use crate::state::Activity;
use crate::state_with_look_aside::StateWithLookAside;
use bus::Bus;

// How many steps a loop made, and what it was answered last: by its last step, or by the refused one that ended it. Where it
// made none, that is Done.
#[derive(Clone, Copy)]
pub struct StepsMade {
    pub(crate) steps: u32,
    pub(crate) last: Result<Event, StepRefusal>,
}

impl StepsMade {
    pub(crate) fn report(self) -> RunReport
        ensures { result ≡ report self }
    {
        RunReport {
            steps: self.steps,
            refusal: self.last.err(),
        }
    }
}

impl StateWithLookAside {
    // A waiting core for which nothing is due goes on waiting.
    fn act<B: Bus>(&mut self, bus: &mut B) -> Result<Event, StepRefusal>
        ensures value { outcome result self.new (B.byte bus.new) ≡ act self.old (B.byte bus.old) }
        ensures kept { B.layout bus.new ≡ B.layout bus.old }
        ensures untouched { (keeps_waiting self.old.activity (due self.old.registers.interrupts) ≡ false → interrupted self.old.registers ≡ false → LeadsNowhere self.old) → bus.new ≡ bus.old }
    {
        if self.state.keeps_waiting() {
            return Ok(Event::Waiting);
        }
        self.state.activity = Activity::Running;
        self.execute(bus)
    }

    // A refused step puts back the two things that it changed before it asked the bus.
    fn step<B: Bus>(&mut self, bus: &mut B, levels: u8) -> Result<Event, StepRefusal>
        ensures value { outcome result self.new (B.byte bus.new) ≡ step self.old levels (B.byte bus.old) }
        ensures kept { B.layout bus.new ≡ B.layout bus.old }
        ensures untouched { FetchesNothing self.old levels → bus.new ≡ bus.old }
    {
        let old_levels = self.state.registers.interrupts.pending.hwi;
        let old_activity = self.state.activity;
        self.state.registers.take_levels(levels);
        match self.act(bus) {
            Ok(event) => {
                self.state.registers.beat();
                Ok(event)
            }
            Err(refusal) => {
                self.state.registers.take_levels(old_levels);
                self.state.activity = old_activity;
                Err(refusal)
            }
        }
    }

    // There is one loop behind a step and a run, so that the code of a step stands in a program once, within the loop.
    pub(crate) fn steps<B: Bus>(&mut self, bus: &mut B, count: u32, levels: u8) -> StepsMade
        ensures value { outcome (report result) self.new (B.byte bus.new) ≡ run_of count levels self.old (B.byte bus.old) }
        ensures kept { B.layout bus.new ≡ B.layout bus.old }
        ensures untouched { NoStepFetches count levels self.old (B.byte bus.old) → bus.new ≡ bus.old }
        ensures single { count ≡ 1 → Single self.old levels (B.byte bus.old) (outcome result.last self.new (B.byte bus.new)) (bus.new ≡ bus.old) }
    {
        let mut last = Event::Done;
        for steps in 0..count {
            match self.step(bus, levels) {
                Ok(event) => last = event,
                Err(refusal) => {
                    return StepsMade {
                        steps,
                        last: Err(refusal),
                    };
                }
            }
        }
        StepsMade {
            steps: count,
            last: Ok(last),
        }
    }
}
