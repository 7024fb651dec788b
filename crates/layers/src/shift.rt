// A bus seen at other addresses.
ghost use Rattle.std.specs.Prelude.{◌≡◌, ◌∷◌, Some, None, Err, MatchResult};
ghost use Rattle.bus.specs.Board.{nothing, offset_in};
ghost use Rattle.bus.specs.Layout.{number, cells, hidden_cells};
ghost use Rattle.bus.specs.Memory.{read_of};
ghost use Rattle.layers.specs.Layers.{shift_cells, moved_by, shown_shifted};
ghost use Rattle.layers.specs.Soundness.{shift_sound};

use bus::{Access, Bus, PhysAddr, Reach, Refusal, Span};

// The inner bus, from its address 0 on, seen in the span.
#[derive(Drop)]
pub struct Shift<B> {
    span: Reach,
    inner: B,
}

impl<B: Bus> Shift<B> {
    pub fn new(span: Span, inner: B) -> Shift<B>
        ensures cells { shift_cells result.span.base.0 result.span.length (B.byte result.inner) ≡ shift_cells span.base.0 span.length (B.byte inner) }
        ensures span { result.span ≡ span }
        ensures inner { result.inner ≡ inner }
    {
        Shift {
            span: Reach::new(span),
            inner,
        }
    }

    // The access as the inner bus takes it; outside the span there is nothing to take it.
    #[inline(always)]
    fn lowered(&self, access: Access) -> Result<Access, Refusal>
        ensures { MatchResult result (λ inner. (Some inner.at.0 ≡ offset_in self.now.span.base.0 self.now.span.length access.at.0) × (inner.width ≡ access.width)) (λ e. (None ≡ offset_in self.now.span.base.0 self.now.span.length access.at.0) × (Err e ≡ read_of nothing access.at.0 access.width)) }
    {
        let offset = self
            .span
            .offset_of(access.at)
            .ok_or_else(|| access.missing())?;
        Ok(Access {
            at: PhysAddr(offset),
            ..access
        })
    }
}

// A refusal of the inner bus, as it is seen from outside.
fn moved(base: PhysAddr, refusal: Refusal) -> Refusal
    ensures { result ≡ moved_by base.0 refusal }
{
    match refusal {
        Refusal::Misaligned => Refusal::Misaligned,
        Refusal::Absent(at) => Refusal::Absent(at.wrapping_add(base.0)),
        Refusal::Fixed(at) => Refusal::Fixed(at.wrapping_add(base.0)),
    }
}

impl<B: Bus> Bus for Shift<B> {
    ghost byte = { λ s. shift_cells s.span.base.0 s.span.length (B.byte s.inner) };

    ghost sound = { λ s. shift_sound s.span.base.0 s.span.length (B.byte s.inner) (B.sound s.inner) };

    ghost layout = { λ s. number s.span.base.0 ∷ number s.span.length ∷ cells (hidden_cells (shown_shifted s.span.base.0 s.span.length) (B.byte s.inner)) ∷ B.layout s.inner };

    #[inline(always)]
    fn read(&mut self, access: Access) -> Result<u32, Refusal> {
        let inner = self.lowered(access)?;
        self.inner
            .read(inner)
            .map_err(|refusal| moved(self.span.base(), refusal))
    }

    #[inline(always)]
    fn write(&mut self, access: Access, value: u32) -> Result<(), Refusal> {
        let inner = self.lowered(access)?;
        self.inner
            .write(inner, value)
            .map_err(|refusal| moved(self.span.base(), refusal))
    }
}
