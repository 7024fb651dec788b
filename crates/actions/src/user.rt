// What every program reads and writes of the core: the PC and the general registers.
ghost use Rattle.std.specs.Prelude.{◌≡◌};
ghost use Rattle.actions.specs.User.{reset_user, next_pc, written};

use crate::registers::GeneralRegisters;
use isa::Reg;
use pages::VirtAddr;
use word::add;

#[derive(PartialEq, Eq, Debug, Drop)]
pub struct UserState {
    pub pc: VirtAddr,
    pub general: GeneralRegisters,
}

impl UserState {
    // As reset leaves it.
    pub fn new() -> UserState
        ensures { result ≡ reset_user }
    {
        UserState {
            pc: VirtAddr(0x1c00_0000),
            general: GeneralRegisters::new(),
        }
    }

    // Where the next instruction stands.
    pub fn next_pc(&self) -> VirtAddr
        ensures { result ≡ next_pc self.now }
    {
        VirtAddr(add(self.pc.0, 4))
    }

    // GR[rd] gets the value, and the program goes on at `next`.
    pub fn write(&mut self, rd: Reg, value: u32, next: VirtAddr)
        ensures { self.new ≡ written self.old rd value next }
    {
        self.general.write(rd, value);
        self.pc = next;
    }
}
