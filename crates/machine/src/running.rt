// Steps and runs of a running core.
ghost use Rattle.std.specs.Prelude.{◌≡◌, ◌+◌, ◌%◌, ◌^◌, true, IfOk, IfErr, OnErr};
ghost use Rattle.bus.specs.Memory.{Memory};
ghost use Rattle.control.specs.Exceptions.{interrupted};
ghost use Rattle.machine.specs.declared.state.State.{State as TheState};
ghost use Rattle.machine.specs.Outcomes.{outcome};
ghost use Rattle.machine.specs.Step.{at_levels, step};
ghost use Rattle.machine.specs.Calls.{run};
ghost use Rattle.machine.specs.Isolation.{FetchesNothing, StepIsolated, Confined};
ghost use Rattle.machine.specs.Laws.{Refused, IfException, HandlerBegins, InterruptTaken, Splits, RunPerforms, RunFetchesNothing, RunIsolated};

use crate::answers::{CallRefusal, Event, RunReport, StepRefusal};
use crate::stages::RunningCore;
use bus::Bus;

// The longest run.
const MOST_STEPS: u32 = 65_536;

impl RunningCore {
    // One step, with the levels of the eight hardware lines.
    pub fn step<B: Bus>(&mut self, bus: &mut B, levels: u8) -> Result<Event, StepRefusal>
        ensures value { outcome result self.new (B.byte bus.new) ≡ step self.old levels (B.byte bus.old) }
        ensures kept { B.layout bus.new ≡ B.layout bus.old }

        // A step that fetches nothing, as one that waits or takes an interrupt, leaves the bus alone, with all that it keeps for itself.
        ensures untouched { FetchesNothing self.old levels → bus.new ≡ bus.old }

        // Of the bytes of a call that the step makes, the bus refuses by 8 the lowest that is absent, or else by 9 the lowest that
        // is fixed and was to be stored to; then core and memory stay as they were.
        ensures refused { IfErr result (λ e. Refused self.old levels (B.byte bus.old) e self.new (B.byte bus.new)) }

        // An exception begins its handler in PLV0 with IE 0, and ERA is the step's PC.
        ensures exception { IfException result (HandlerBegins self.old self.new) }

        // An interrupt asks the bus for nothing.
        ensures interrupt { interrupted (at_levels self.old levels).registers ≡ true → InterruptTaken self.old levels (B.byte bus.old) (outcome result self.new (B.byte bus.new)) }
        ensures isolated { StepIsolated self.old levels (B.byte bus.old) (outcome result self.new (B.byte bus.new)) }
        ensures confined { Confined self.old (B.byte bus.old) (outcome result self.new (B.byte bus.new)) }
    {
        self.inner.steps(bus, 1, levels).last
    }

    // Makes `count` steps with the same levels, or as many as come before a refused one.
    #[tactic(auto, using(crate::proofs::Confining::confined))]
    pub fn run<B: Bus>(
        &mut self,
        bus: &mut B,
        count: u32,
        levels: u8,
    ) -> Result<RunReport, CallRefusal>
        ensures value { outcome result self.new (B.byte bus.new) ≡ run self.old count levels (B.byte bus.old) }
        ensures kept { B.layout bus.new ≡ B.layout bus.old }

        // A run that is refused, or of which no step fetches, leaves the bus alone, with all that it keeps for itself.
        ensures refused { OnErr result (bus.new ≡ bus.old) }
        ensures untouched { RunFetchesNothing count levels self.old (B.byte bus.old) → bus.new ≡ bus.old }

        // The counter has risen by the accepted steps, which are those that are reported.
        ensures counter { IfOk result (λ report. self.new.registers.timer.counter % 2 ^ 64 ≡ (self.old.registers.timer.counter + report.steps) % 2 ^ 64) }

        // A run of a + b steps is a run of a and then one of b.
        ensures splits { IfOk result (λ report. Splits count levels self.old (B.byte bus.old) (outcome report self.new (B.byte bus.new))) }
        ensures isolated { IfOk result (λ report. RunIsolated count levels self.old (B.byte bus.old) (outcome report self.new (B.byte bus.new))) }
        ensures confined { (s : TheState) (m : Memory) → RunPerforms count levels self.old (B.byte bus.old) s m → Confined s m (step s levels m) }
    {
        if count > MOST_STEPS {
            return Err(CallRefusal::RunTooLong);
        }
        Ok(self.inner.steps(bus, count, levels).report())
    }
}
