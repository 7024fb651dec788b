// The instruction at the PC is fetched and acts, unless an interrupt is taken.
ghost use Rattle.std.specs.Prelude.{◌≡◌, false};
ghost use Rattle.control.specs.Exceptions.{interrupted};
ghost use Rattle.isa.specs.Decoding.{decode_of};
ghost use Rattle.machine.specs.Execution.{perform, decoded, fetch, execute};
ghost use Rattle.machine.specs.Isolation.{LeadsNowhere};
ghost use Rattle.machine.specs.Outcomes.{outcome};

use crate::answers::{Event, StepRefusal};
use crate::state_with_look_aside::StateWithLookAside;
use actions::Action;
use bus::{Access, Bus};
use csr::Exception;
use isa::decode;
use pages::AccessKind;

impl StateWithLookAside {
    fn perform<B: Bus>(&mut self, bus: &mut B, action: Action) -> Result<Event, StepRefusal>
        ensures value { outcome result self.new (B.byte bus.new) ≡ perform self.old (B.byte bus.old) action }
        ensures kept { B.layout bus.new ≡ B.layout bus.old }
    {
        match action {
            Action::Write { rd, value, next } => {
                self.state.user.write(rd, value, next);
                Ok(Event::Done)
            }
            Action::Go { next } => {
                self.state.user.pc = next;
                Ok(Event::Done)
            }
            Action::Load { op, rd, at } => self.load(bus, op, rd, at),
            Action::Store { op, at, value } => self.store(bus, op, at, value),
            Action::LoadLinked { rd, at } => self.load_linked(bus, rd, at),
            Action::StoreConditional { rd, at, value } => {
                self.store_conditional(bus, rd, at, value)
            }
            Action::Probe { at } => Ok(self.probe(at)),
            Action::Raise(exception) => Ok(self.raise(exception)),
            Action::Privileged(action) => Ok(self.by_privilege(action)),
        }
    }

    fn decode_and_perform<B: Bus>(&mut self, bus: &mut B, word: u32) -> Result<Event, StepRefusal>
        ensures value { outcome result self.new (B.byte bus.new) ≡ decoded self.old (B.byte bus.old) (decode_of word) }
        ensures kept { B.layout bus.new ≡ B.layout bus.old }
    {
        match decode(word) {
            Some(instruction) => {
                let action = self
                    .state
                    .user
                    .plan(&self.state.registers.timer, instruction);
                self.perform(bus, action)
            }
            None => Ok(self.raise(Exception::Ine)),
        }
    }

    fn fetch_and_perform<B: Bus>(&mut self, bus: &mut B) -> Result<Event, StepRefusal>
        ensures value { outcome result self.new (B.byte bus.new) ≡ fetch self.old (B.byte bus.old) }
        ensures kept { B.layout bus.new ≡ B.layout bus.old }
        ensures untouched { LeadsNowhere self.old → bus.new ≡ bus.old }
    {
        match self.locate(AccessKind::Fetch, 4, self.state.user.pc) {
            Ok(place) => match bus.read(Access::new(place, 4)) {
                Ok(word) => self.decode_and_perform(bus, word),
                Err(by_bus) => Err(self.refusal(AccessKind::Fetch, by_bus)),
            },
            Err(exception) => Ok(self.raise(exception)),
        }
    }

    pub(crate) fn execute<B: Bus>(&mut self, bus: &mut B) -> Result<Event, StepRefusal>
        ensures value { outcome result self.new (B.byte bus.new) ≡ execute self.old (B.byte bus.old) }
        ensures kept { B.layout bus.new ≡ B.layout bus.old }
        ensures untouched { (interrupted self.old.registers ≡ false → LeadsNowhere self.old) → bus.new ≡ bus.old }
    {
        if self.state.registers.is_interrupted() {
            Ok(self.raise(Exception::Int))
        } else {
            self.fetch_and_perform(bus)
        }
    }
}
