// Loads and stores: alignment, then translation, then the bus.
ghost use Rattle.std.specs.Prelude.{◌≡◌};
ghost use Rattle.pages.specs.declared.access_kind.AccessKind.TheVariants.{Load};
ghost use Rattle.actions.specs.declared.action.Action.TheVariants as action;
ghost use Rattle.machine.specs.Access.{locate};
ghost use Rattle.machine.specs.LoadsAndStores.{probe};
ghost use Rattle.machine.specs.Execution.{perform};
ghost use Rattle.machine.specs.Outcomes.{settled, outcome};

use crate::answers::{Event, StepRefusal};
use crate::state_with_look_aside::StateWithLookAside;
use bus::{Access, Bus};
use isa::{LoadOp, Reg, StoreOp};
use operations::{load_result, load_width, store_width};
use pages::{AccessKind, VirtAddr};

impl StateWithLookAside {
    // Each operation has a copy of its own, in which its width is a constant and no longer tested.
    pub(crate) fn load<B: Bus>(
        &mut self,
        bus: &mut B,
        op: LoadOp,
        rd: Reg,
        at: VirtAddr,
    ) -> Result<Event, StepRefusal>
        ensures value { outcome result self.new (B.byte bus.new) ≡ perform self.old (B.byte bus.old) (action.Load op rd at) }
        ensures kept { B.layout bus.new ≡ B.layout bus.old }
    {
        match op {
            LoadOp::LdB => self.load_as(bus, LoadOp::LdB, rd, at),
            LoadOp::LdH => self.load_as(bus, LoadOp::LdH, rd, at),
            LoadOp::LdW => self.load_as(bus, LoadOp::LdW, rd, at),
            LoadOp::LdBu => self.load_as(bus, LoadOp::LdBu, rd, at),
            LoadOp::LdHu => self.load_as(bus, LoadOp::LdHu, rd, at),
        }
    }

    #[inline(always)]
    fn load_as<B: Bus>(
        &mut self,
        bus: &mut B,
        op: LoadOp,
        rd: Reg,
        at: VirtAddr,
    ) -> Result<Event, StepRefusal>
        ensures value { outcome result self.new (B.byte bus.new) ≡ perform self.old (B.byte bus.old) (action.Load op rd at) }
        ensures kept { B.layout bus.new ≡ B.layout bus.old }
    {
        let width = load_width(op);
        match self.locate(AccessKind::Load, width, at) {
            Ok(place) => match bus.read(Access::new(place, width)) {
                Ok(value) => {
                    self.state.set_result(rd, load_result(op, value));
                    Ok(Event::Done)
                }
                Err(by_bus) => Err(self.refusal(AccessKind::Load, by_bus)),
            },
            Err(exception) => Ok(self.raise(exception)),
        }
    }

    pub(crate) fn store<B: Bus>(
        &mut self,
        bus: &mut B,
        op: StoreOp,
        at: VirtAddr,
        value: u32,
    ) -> Result<Event, StepRefusal>
        ensures value { outcome result self.new (B.byte bus.new) ≡ perform self.old (B.byte bus.old) (action.Store op at value) }
        ensures kept { B.layout bus.new ≡ B.layout bus.old }
    {
        match op {
            StoreOp::StB => self.store_as(bus, StoreOp::StB, at, value),
            StoreOp::StH => self.store_as(bus, StoreOp::StH, at, value),
            StoreOp::StW => self.store_as(bus, StoreOp::StW, at, value),
        }
    }

    #[inline(always)]
    fn store_as<B: Bus>(
        &mut self,
        bus: &mut B,
        op: StoreOp,
        at: VirtAddr,
        value: u32,
    ) -> Result<Event, StepRefusal>
        ensures value { outcome result self.new (B.byte bus.new) ≡ perform self.old (B.byte bus.old) (action.Store op at value) }
        ensures kept { B.layout bus.new ≡ B.layout bus.old }
    {
        let width = store_width(op);
        match self.locate(AccessKind::Store, width, at) {
            Ok(place) => match bus.write(Access::new(place, width), value) {
                Ok(()) => {
                    self.state.advance();
                    Ok(Event::Done)
                }
                Err(by_bus) => Err(self.refusal(AccessKind::Store, by_bus)),
            },
            Err(exception) => Ok(self.raise(exception)),
        }
    }

    // LL.W
    pub(crate) fn load_linked<B: Bus>(
        &mut self,
        bus: &mut B,
        rd: Reg,
        at: VirtAddr,
    ) -> Result<Event, StepRefusal>
        ensures value { outcome result self.new (B.byte bus.new) ≡ perform self.old (B.byte bus.old) (action.LoadLinked rd at) }
        ensures kept { B.layout bus.new ≡ B.layout bus.old }
    {
        match self.locate(AccessKind::Load, 4, at) {
            Ok(place) => match bus.read(Access::new(place, 4)) {
                Ok(value) => {
                    self.state.set_result(rd, value);
                    self.state.registers.link = true;
                    Ok(Event::Done)
                }
                Err(by_bus) => Err(self.refusal(AccessKind::Load, by_bus)),
            },
            Err(exception) => Ok(self.raise(exception)),
        }
    }

    // SC.W: its address is checked whatever the link.
    pub(crate) fn store_conditional<B: Bus>(
        &mut self,
        bus: &mut B,
        rd: Reg,
        at: VirtAddr,
        value: u32,
    ) -> Result<Event, StepRefusal>
        ensures value { outcome result self.new (B.byte bus.new) ≡ perform self.old (B.byte bus.old) (action.StoreConditional rd at value) }
        ensures kept { B.layout bus.new ≡ B.layout bus.old }
    {
        match self.locate(AccessKind::Store, 4, at) {
            Ok(place) => {
                let link = self.state.registers.link;
                if link && let Err(by_bus) = bus.write(Access::new(place, 4), value) {
                    return Err(self.refusal(AccessKind::Store, by_bus));
                }
                self.state.set_result(rd, u32::from(link));
                self.state.registers.link = false;
                Ok(Event::Done)
            }
            Err(exception) => Ok(self.raise(exception)),
        }
    }

    // A CACOP of the Hit kind.
    pub(crate) fn probe(&mut self, at: VirtAddr) -> Event
        ensures { settled result self.new ≡ probe self.old (locate self.old Load 1 at) }
    {
        match self.locate(AccessKind::Load, 1, at) {
            Ok(_) => {
                self.state.advance();
                Event::Done
            }
            Err(exception) => self.raise(exception),
        }
    }
}
