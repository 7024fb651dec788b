// What a step answers that the bus refused.
ghost use Rattle.std.specs.Prelude.{◌≡◌};

use crate::answers::StepRefusal;
use crate::state_with_look_aside::StateWithLookAside;
use bus::Refusal;
use pages::AccessKind;

impl StateWithLookAside {
    #[cold]
    pub(crate) fn refusal(&self, kind: AccessKind, by_bus: Refusal) -> StepRefusal
        ensures { result ≡ record { by_bus = by_bus; kind = kind; pc = self.now.user.pc } }
    {
        StepRefusal {
            by_bus,
            kind,
            pc: self.state.user.pc,
        }
    }
}
