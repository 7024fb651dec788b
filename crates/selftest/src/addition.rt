// The first program: addi.w r4, r0, -1; add.w r5, r4, r4; and a branch to itself.
ghost use Rattle.std.specs.Prelude.{◌≡◌};
ghost use Rattle.selftest.specs.Addition.{HoldsAddition, the_sum};
ghost use Rattle.selftest.specs.Examples.{WorkedExamples};
ghost use Rattle.selftest.specs.Reach.{Reach};

use bus::Bus;
use machine::UnresetCore;
use pages::VirtAddr;

#[derive(Clone, Copy, PartialEq, Eq, Debug)]
pub struct Sum {
    pub r4: u32,
    pub r5: u32,
    pub pc: VirtAddr,
    // How many steps were made.
    pub counter: u64,
}

// Resets a core, runs three steps on the bus, and closes it. What it gives is known if the bus holds the program at the reset address.
pub fn add_up<B: Bus>(bus: &mut B) -> Sum
    ensures sum { HoldsAddition (B.byte bus.old) → result ≡ the_sum }
    ensures kept { B.layout bus.new ≡ B.layout bus.old }

    // A theorem over definitions is checked only where a contract cites it, so this call's contract cites these two.
    ensures examples { WorkedExamples }
    ensures reach { Reach }
{
    let mut core = UnresetCore.reset();
    let _ = core.run(bus, 3, 0);
    let r4 = core.register(4).unwrap_or(0);
    let r5 = core.register(5).unwrap_or(0);
    let closed = core.close();
    Sum {
        r4,
        r5,
        pc: closed.pc(),
        counter: closed.counter(),
    }
}
