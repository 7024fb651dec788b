// An exception is taken.
ghost use Rattle.std.specs.Prelude.{◌≡◌};
ghost use Rattle.machine.specs.Outcomes.{settled, raise};

use crate::answers::Event;
use crate::state::State;
use csr::Exception;

impl State {
    #[cold]
    pub(crate) fn raise(&mut self, exception: Exception) -> Event
        ensures { settled result self.new ≡ raise self.old exception }
    {
        self.user.pc = self.registers.raise(exception, self.user.pc);
        Event::Exception(exception.cause())
    }
}
