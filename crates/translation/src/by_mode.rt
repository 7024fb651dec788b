// Translation as DA and PG say: direct; or through a window that applies, else through the TLB.
ghost use Rattle.std.specs.Prelude.{◌≡◌, IfOk};
ghost use Rattle.translation.specs.Translation.{direct, mapped, translation};
ghost use Rattle.translation.specs.Laws.{SameOffset, LeadsTo, LoadsFrom, WholePage};

use crate::page::through_tlb;
use crate::window::{through_window, window_for};
use bus::PhysAddr;
use csr::{Mode, PageFault, TranslationMode, Windows};
use pages::{AccessKind, AccessType, VirtAddr};
use tlb::Tlb;

// In direct mode the physical address is the virtual one.
pub fn direct(mode: &Mode, kind: AccessKind, at: VirtAddr) -> (PhysAddr, AccessType)
    ensures { result ≡ direct mode.now kind at.0 }
{
    let mat = match kind {
        AccessKind::Fetch => mode.datf,
        AccessKind::Load | AccessKind::Store => mode.datm,
    };
    (PhysAddr(at.0), mat)
}

fn mapped(
    mode: &Mode,
    windows: &Windows,
    tlb: &Tlb,
    kind: AccessKind,
    at: VirtAddr,
) -> Result<(PhysAddr, AccessType), PageFault>
    ensures { result ≡ mapped mode.now windows.now tlb.now kind at.0 }
{
    match window_for(windows, mode.plv, at) {
        Some(window) => Ok(through_window(window, at)),
        None => through_tlb(mode, tlb, kind, at),
    }
}

pub fn translate(
    mode: &Mode,
    windows: &Windows,
    tlb: &Tlb,
    kind: AccessKind,
    at: VirtAddr,
) -> Result<(PhysAddr, AccessType), PageFault>
    ensures value { result ≡ translation mode.now windows.now tlb.now kind at.0 }

    // The result keeps the offset in 4 KiB, and is in the segment or frame that the address leads to.
    ensures offset { IfOk result (λ to. SameOffset at.0 to.0.0) }
    ensures lies { IfOk result (λ to. LeadsTo mode.now windows.now tlb.now at.0 to.0.0) }

    // Whoever may store or fetch there may load there.
    ensures loads { IfOk result (λ to. LoadsFrom mode.now windows.now tlb.now at.0 to.0.0) }
    ensures whole_page { WholePage mode.now windows.now tlb.now kind at.0 result }
{
    match mode.translation {
        TranslationMode::Direct => Ok(direct(mode, kind, at)),
        TranslationMode::Mapped => mapped(mode, windows, tlb, kind, at),
    }
}
