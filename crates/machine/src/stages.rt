// The stages of a core, each a value of its own that moves into the next: one that was never reset admits reset alone, and one
// that is closed gives its last PC and its counter.
ghost use Rattle.std.specs.Prelude.{◌≡◌};
ghost use Rattle.machine.specs.State.{reset_state};
ghost use Rattle.machine.specs.Calls.{closed};

use crate::state_with_look_aside::StateWithLookAside;
use pages::VirtAddr;
use std::marker::Model;

#[derive(PartialEq, Eq, Debug, Drop)]
pub struct UnresetCore;

#[derive(PartialEq, Eq, Debug, Drop)]
pub struct RunningCore {
    pub(crate) inner: StateWithLookAside,
}

#[derive(PartialEq, Eq, Debug, Drop)]
pub struct ClosedCore {
    pc: VirtAddr,
    counter: u64,
}

// A clause sees the state, so that a core may keep more than a step is defined by.
impl Model for RunningCore {
    ghost use Rattle.machine.specs.declared.state.State.{State};

    ghost Value = { State };

    ghost view = { λ core. core.inner };

    ghost inverse = { λ state. record { inner = state } };
}

impl UnresetCore {
    pub fn reset(self) -> RunningCore
        ensures { result ≡ reset_state }
    {
        RunningCore {
            inner: StateWithLookAside::new(),
        }
    }
}

impl RunningCore {
    pub fn reset(&mut self)
        ensures { self.new ≡ reset_state }
    {
        self.inner = StateWithLookAside::new();
    }

    pub fn close(self) -> ClosedCore
        ensures { result ≡ closed self }
    {
        ClosedCore {
            pc: self.inner.state.user.pc,
            counter: self.inner.state.registers.timer.counter,
        }
    }
}

impl ClosedCore {
    // The PC at closing.
    pub fn pc(&self) -> VirtAddr
        ensures { result ≡ self.now.pc }
    {
        self.pc
    }

    pub fn counter(&self) -> u64
        ensures { result ≡ self.now.counter }
    {
        self.counter
    }
}
