// The state of a core that was reset.
ghost use Rattle.std.specs.Prelude.{◌≡◌};
ghost use Rattle.csr.specs.Interrupts.{due};
ghost use Rattle.machine.specs.State.{reset_state, advanced, with_result};
ghost use Rattle.machine.specs.Step.{keeps_waiting};

use actions::UserState;
use control::Registers;
use isa::Reg;
use tlb::Tlb;

// Whether the core goes on with the next instruction, or waits for an interrupt.
#[derive(Clone, Copy, PartialEq, Eq, Debug)]
pub enum Activity {
    Running,
    Waiting,
}

#[derive(PartialEq, Eq, Debug, Drop)]
pub struct State {
    pub(crate) user: UserState,
    pub(crate) registers: Registers,
    pub(crate) tlb: Tlb,
    pub(crate) activity: Activity,
}

impl State {
    // As reset leaves it.
    pub(crate) fn new() -> State
        ensures { result ≡ reset_state }
    {
        State {
            user: UserState::new(),
            registers: Registers::new(),
            tlb: Tlb::new(),
            activity: Activity::Running,
        }
    }

    // Whether it waits, and nothing is due.
    pub(crate) fn keeps_waiting(&self) -> bool
        ensures { result ≡ keeps_waiting self.now.activity (due self.now.registers.interrupts) }
    {
        self.activity == Activity::Waiting && !self.registers.interrupts.is_due()
    }

    // The next instruction follows.
    pub(crate) fn advance(&mut self)
        ensures { self.new ≡ advanced self.old }
    {
        self.user.pc = self.user.next_pc();
    }

    // GR[rd] gets the value, and the next instruction follows.
    pub(crate) fn set_result(&mut self, rd: Reg, value: u32)
        ensures { self.new ≡ with_result self.old rd value }
    {
        let next = self.user.next_pc();
        self.user.write(rd, value, next);
    }
}
