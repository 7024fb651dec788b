// `selftest` proves over the definition where this address leads; here the built code runs and leads there.
use crate::translate;
use bus::PhysAddr;
use csr::{Mode, TranslationMode, Window, Windows};
use pages::{AccessKind, Bits, Frame, Half, PageSize, Privilege, VirtAddr};
use tlb::{Entry, Tlb};

#[test]
fn a_large_page(rt: HostRuntime) {
    let mode = Mode {
        plv: Privilege::Plv0,
        ie: false,
        translation: TranslationMode::Mapped,
        datf: Bits::of_low_bits(0),
        datm: Bits::of_low_bits(0),
        asid: Bits::of_low_bits(0),
    };
    let windows = Windows {
        dmw0: Window::of_dmw(0),
        dmw1: Window::of_dmw(0),
    };
    let even = Half {
        valid: true,
        dirty: false,
        plv: Bits::of_low_bits(0),
        mat: Bits::of_low_bits(1),
        frame: Frame::of_low_bits(0x800),
    };
    let mut tlb = Tlb::new();
    tlb.fill(Entry {
        exists: true,
        global: true,
        page_size: PageSize::Large,
        vppn: Bits::of_low_bits(0x200),
        even,
        ..Entry::empty()
    });
    let at = VirtAddr(0x40_1234);
    assert_eq!(rt;
        translate(&mode, &windows, &tlb, AccessKind::Load, at),
        Ok((PhysAddr(0x80_1234), Bits::of_low_bits(1)))
    );
}
