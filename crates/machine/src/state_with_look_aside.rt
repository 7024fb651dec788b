// The state together with its look-aside.
ghost use Rattle.std.specs.Prelude.{◌≡◌};
ghost use Rattle.machine.specs.Access.{placed, translated};
ghost use Rattle.machine.specs.Outcomes.{settled, raise};
ghost use Rattle.machine.specs.State.{reset_state};
ghost use Rattle.machine.specs.Supervision.{by_privilege};

use crate::answers::Event;
use crate::look_aside::LookAside;
use crate::state::State;
use actions::PrivilegedAction;
use bus::PhysAddr;
use csr::{Exception, TranslationMode};
use pages::{AccessKind, VirtAddr};
use std::marker::Model;
use translation::{direct, translate};

#[derive(Debug, Drop)]
pub struct StateWithLookAside {
    pub(crate) state: State,
    look_aside: LookAside,
}

// A clause sees the state alone. There is no core whose look-aside is wrong.
impl Model for StateWithLookAside {
    ghost use Rattle.machine.specs.declared.state.State.{State};

    ghost Value = { State };

    ghost use Rattle.machine.specs.LookAside.{Agrees};

    ghost view = { λ both. both.state };

    ghost invariant = { λ both. Agrees both.look_aside both.state.registers.mode both.state.registers.windows both.state.tlb };
}

impl PartialEq for StateWithLookAside {
    ghost use Rattle.machine.specs.contracts.state.StatePartialEq.TheImpl as by_state;

    ghost eq = { by_state.ghosts.eq };

    ghost use Rattle.machine.specs.contracts.state.StatePartialEq.TheImpl.Laws as laws_by_state;

    ghost laws = { laws_by_state.lawful.laws };

    fn eq(&self, other: &StateWithLookAside) -> bool {
        self.state == other.state
    }
}

impl Eq for StateWithLookAside {
    ghost use Rattle.machine.specs.contracts.state.StateEq.TheImpl.Laws as laws_by_state;

    ghost laws = { laws_by_state.lawful.laws };
}

impl StateWithLookAside {
    pub(crate) fn new() -> StateWithLookAside
        ensures { result ≡ reset_state }
    {
        StateWithLookAside {
            state: State::new(),
            look_aside: LookAside::new(),
        }
    }

    // Where an aligned access leads. Its access type is not used, there being no cache.
    #[inline(always)]
    pub(crate) fn translate(
        &mut self,
        kind: AccessKind,
        at: VirtAddr,
    ) -> Result<PhysAddr, Exception>
        ensures value { result ≡ placed at.0 (translated self.old kind at.0) }
        ensures same { self.new ≡ self.old }
    {
        let mode = &self.state.registers.mode;
        match mode.translation {
            TranslationMode::Direct => Ok(direct(mode, kind, at).0),
            TranslationMode::Mapped => self.translate_mapped(kind, at),
        }
    }

    // By what is known of its page, or else anew.
    #[inline(always)]
    fn translate_mapped(&mut self, kind: AccessKind, at: VirtAddr) -> Result<PhysAddr, Exception>
        ensures value { result ≡ placed at.0 (translated self.old kind at.0) }
        ensures same { self.new ≡ self.old }
    {
        match self.look_aside.find(kind, at) {
            Some(place) => Ok(place),
            None => self.translate_anew(kind, at),
        }
    }

    // Apart, so that the way by the look-aside stays short where it is compiled into the step.
    #[inline(never)]
    fn translate_anew(&mut self, kind: AccessKind, at: VirtAddr) -> Result<PhysAddr, Exception>
        ensures value { result ≡ placed at.0 (translated self.old kind at.0) }
        ensures same { self.new ≡ self.old }
    {
        let registers = &self.state.registers;
        match translate(
            &registers.mode,
            &registers.windows,
            &self.state.tlb,
            kind,
            at,
        ) {
            Ok((place, _)) => {
                self.look_aside.remember(kind, at, place);
                Ok(place)
            }
            Err(fault) => Err(Exception::Page(fault, at)),
        }
    }

    // An exception changes the mode, so what was known of translation may no longer be so.
    #[cold]
    pub(crate) fn raise(&mut self, exception: Exception) -> Event
        ensures { settled result self.new ≡ raise self.old exception }
    {
        self.look_aside = LookAside::new();
        self.state.raise(exception)
    }

    // What PLV0 alone may do may change all that translation depends on.
    pub(crate) fn by_privilege(&mut self, action: PrivilegedAction) -> Event
        ensures { settled result self.new ≡ by_privilege self.old.registers.mode.plv self.old action }
    {
        self.look_aside = LookAside::new();
        self.state.by_privilege(action)
    }
}
