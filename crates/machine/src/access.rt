// Where an access of the program leads.
ghost use Rattle.std.specs.Prelude.{◌≡◌, ◌%◌, ◌==◌, true};
ghost use Rattle.bus.specs.Memory.{is_width};
ghost use Rattle.machine.specs.Access.{misalignment, locate};

use crate::state_with_look_aside::StateWithLookAside;
use bus::PhysAddr;
use csr::Exception;
use pages::{AccessKind, VirtAddr};

// By cases, so that the code divides by constants alone.
fn is_aligned(width: u32, at: VirtAddr) -> bool
    requires { is_width width ≡ true }
    ensures { result ≡ (at.0 % width == 0) }
{
    match width {
        1 => true,
        2 => at.0 % 2 == 0,
        _ => at.0 % 4 == 0,
    }
}

fn misalignment(kind: AccessKind, at: VirtAddr) -> Exception
    ensures { result ≡ misalignment kind at.0 }
{
    match kind {
        AccessKind::Fetch => Exception::Adef,
        AccessKind::Load | AccessKind::Store => Exception::Ale(at),
    }
}

impl StateWithLookAside {
    #[inline(always)]
    pub(crate) fn locate(
        &mut self,
        kind: AccessKind,
        width: u32,
        at: VirtAddr,
    ) -> Result<PhysAddr, Exception>
        requires { is_width width ≡ true }
        ensures value { result ≡ locate self.old kind width at }
        ensures same { self.new ≡ self.old }
    {
        if is_aligned(width, at) {
            self.translate(kind, at)
        } else {
            Err(misalignment(kind, at))
        }
    }
}
