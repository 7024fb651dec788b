// The look-aside: for each kind of access the page of the last one, and the frame to which that led.
ghost use Rattle.std.specs.Prelude.{◌≡◌, ◌/◌, ◌^◌};
ghost use Rattle.machine.specs.LookAside.{nothing_known, found, page_known_by, remembered};

use bus::PhysAddr;
use pages::{AccessKind, Frame, VirtAddr};

// Where a page of 4 KiB leads. It is named by the upper 20 bits of its addresses.
#[derive(Clone, Copy, PartialEq, Eq, Debug)]
pub struct KnownPage {
    pub(crate) page: u32,
    pub(crate) frame: Frame,
}

#[derive(Clone, Copy, PartialEq, Eq, Debug)]
pub struct LookAside {
    pub(crate) fetch: Option<KnownPage>,
    pub(crate) load: Option<KnownPage>,
    pub(crate) store: Option<KnownPage>,
}

fn page_of(at: VirtAddr) -> u32
    ensures { result ≡ at.0 / 2 ^ 12 }
{
    at.0 >> 12
}

impl LookAside {
    pub(crate) fn new() -> LookAside
        ensures { result ≡ nothing_known }
    {
        LookAside {
            fetch: None,
            load: None,
            store: None,
        }
    }

    // Where an access leads, if its page is known.
    #[inline(always)]
    pub(crate) fn find(&self, kind: AccessKind, at: VirtAddr) -> Option<PhysAddr>
        ensures { result ≡ found self.now kind at.0 }
    {
        let known = match kind {
            AccessKind::Fetch => self.fetch?,
            AccessKind::Load => self.load?,
            AccessKind::Store => self.store?,
        };
        if page_of(at) == known.page {
            Some(PhysAddr(known.frame.0.value() << 12 | at.0 % 0x1000))
        } else {
            None
        }
    }

    pub(crate) fn remember(&mut self, kind: AccessKind, at: VirtAddr, place: PhysAddr)
        ensures { self.new ≡ remembered self.old kind (page_known_by at.0 place.0) }
    {
        let known = Some(KnownPage {
            page: page_of(at),
            frame: Frame::of_low_bits(place.0 >> 12),
        });
        match kind {
            AccessKind::Fetch => self.fetch = known,
            AccessKind::Load => self.load = known,
            AccessKind::Store => self.store = known,
        }
    }
}
