// Through a page, by the TLB.
ghost use Rattle.std.specs.Prelude.{◌≡◌};
ghost use Rattle.translation.specs.Translation.{invalid, permission, in_page, through_page, through_tlb};

use bus::PhysAddr;
use csr::{Mode, PageFault};
use pages::{AccessKind, AccessType, Half, PageSize, Privilege, VirtAddr};
use tlb::{Entry, Tlb};

fn invalid(kind: AccessKind) -> PageFault
    ensures { result ≡ invalid kind }
{
    match kind {
        AccessKind::Fetch => PageFault::Pif,
        AccessKind::Load => PageFault::Pil,
        AccessKind::Store => PageFault::Pis,
    }
}

// Whether a program of that privilege may use the page so.
fn permission(half: &Half, plv: Privilege, kind: AccessKind) -> Result<(), PageFault>
    ensures { result ≡ permission half.now plv kind }
{
    if !half.valid {
        Err(invalid(kind))
    } else if half.plv.value() < plv.number() {
        Err(PageFault::Ppi)
    } else if kind == AccessKind::Store && !half.dirty {
        Err(PageFault::Pme)
    } else {
        Ok(())
    }
}

// The frame's bits from PS up, and the address's below.
fn in_page(page_size: PageSize, half: &Half, at: VirtAddr) -> (PhysAddr, AccessType)
    ensures { result ≡ in_page page_size half.now at.0 }
{
    let frame = half.frame.0.value();
    let to = match page_size {
        PageSize::Small => frame << 12 | at.0 % 0x1000,
        PageSize::Large => frame >> 9 << 21 | at.0 % 0x20_0000,
    };
    (PhysAddr(to), half.mat)
}

fn through_page(
    entry: &Entry,
    plv: Privilege,
    kind: AccessKind,
    at: VirtAddr,
) -> Result<(PhysAddr, AccessType), PageFault>
    ensures { result ≡ through_page entry.now plv kind at.0 }
{
    let half = entry.half(at);
    permission(half, plv, kind)?;
    Ok(in_page(entry.page_size, half, at))
}

pub(crate) fn through_tlb(
    mode: &Mode,
    tlb: &Tlb,
    kind: AccessKind,
    at: VirtAddr,
) -> Result<(PhysAddr, AccessType), PageFault>
    ensures { result ≡ through_tlb mode.now tlb.now kind at.0 }
{
    let index = tlb.find(at, mode.asid).ok_or(PageFault::Tlbr)?;
    through_page(tlb.entry(index), mode.plv, kind, at)
}
