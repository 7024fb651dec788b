// A bus of which a range cannot be written.
ghost use Rattle.std.specs.Prelude.{◌≡◌, ◌∷◌};
ghost use Rattle.bus.specs.Layout.{number, cells, hidden_cells};
ghost use Rattle.layers.specs.Layers.{lock_cells, shown_unlocked};
ghost use Rattle.layers.specs.Soundness.{lock_sound};

use bus::{Access, Bus, Reach, Refusal, Span};

// The inner bus, whose open bytes in the span are fixed.
#[derive(Drop)]
pub struct Lock<B> {
    span: Reach,
    inner: B,
}

impl<B: Bus> Lock<B> {
    pub fn new(span: Span, inner: B) -> Lock<B>
        ensures cells { lock_cells result.span.base.0 result.span.length (B.byte result.inner) ≡ lock_cells span.base.0 span.length (B.byte inner) }
        ensures span { result.span ≡ span }
        ensures inner { result.inner ≡ inner }
    {
        Lock {
            span: Reach::new(span),
            inner,
        }
    }
}

impl<B: Bus> Bus for Lock<B> {
    ghost byte = { λ s. lock_cells s.span.base.0 s.span.length (B.byte s.inner) };

    ghost sound = { λ s. lock_sound s.span.base.0 s.span.length (B.byte s.inner) (B.sound s.inner) };

    ghost layout = { λ s. number s.span.base.0 ∷ number s.span.length ∷ cells (hidden_cells (shown_unlocked s.span.base.0 s.span.length) (B.byte s.inner)) ∷ B.layout s.inner };

    #[inline(always)]
    fn read(&mut self, access: Access) -> Result<u32, Refusal> {
        if !self.span.is_accepted() {
            return Err(access.missing());
        }
        self.inner.read(access)
    }

    // Inside the span a write is refused as a read is, and where a read is answered, as fixed.
    #[inline(always)]
    fn write(&mut self, access: Access, value: u32) -> Result<(), Refusal> {
        if !self.span.is_accepted() {
            return Err(access.missing());
        }
        if self.span.offset_of(access.at).is_none() {
            return self.inner.write(access, value);
        }
        self.inner.read(access)?;
        Err(Refusal::Fixed(access.at))
    }
}
