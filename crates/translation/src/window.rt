// Through a direct mapping window.
ghost use Rattle.std.specs.Prelude.{◌≡◌};
ghost use Rattle.translation.specs.Translation.{admits, applies, window_for, through_window};

use bus::PhysAddr;
use csr::{Window, Windows};
use pages::{AccessType, Privilege, VirtAddr};

fn admits(window: &Window, plv: Privilege) -> bool
    ensures { result ≡ admits window.now plv }
{
    match plv {
        Privilege::Plv0 => window.plv0,
        Privilege::Plv3 => window.plv3,
    }
}

fn applies(window: &Window, plv: Privilege, at: VirtAddr) -> bool
    ensures { result ≡ applies window.now plv at.0 }
{
    admits(window, plv) && at.0 >> 29 == window.vseg.value()
}

// The window by which the address is translated; if both apply, the second.
pub(crate) fn window_for(windows: &Windows, plv: Privilege, at: VirtAddr) -> Option<Window>
    ensures { result ≡ window_for windows.now plv at.0 }
{
    if applies(&windows.dmw1, plv, at) {
        Some(windows.dmw1)
    } else if applies(&windows.dmw0, plv, at) {
        Some(windows.dmw0)
    } else {
        None
    }
}

pub(crate) fn through_window(window: Window, at: VirtAddr) -> (PhysAddr, AccessType)
    ensures { result ≡ through_window window at.0 }
{
    let to = window.pseg.value() << 29 | at.0 % 0x2000_0000;
    (PhysAddr(to), window.mat)
}
