// Two buses side by side.
ghost use Rattle.std.specs.Prelude.{◌≡◌, ◌∷◌, ◌++◌};
ghost use Rattle.bus.specs.Layout.{number, cells, hidden_cells};
ghost use Rattle.layers.specs.Layers.{split_cells, shown_low, shown_high};
ghost use Rattle.layers.specs.Soundness.{split_sound};

use bus::{Access, Bus, PhysAddr, Refusal, check_border};

// Addresses below the border mean the first bus, and the others the second.
#[derive(Drop)]
pub struct Split<L, R> {
    border: PhysAddr,
    low: L,
    high: R,
}

impl<L: Bus, R: Bus> Split<L, R> {
    pub fn new(border: PhysAddr, low: L, high: R) -> Split<L, R>
        ensures cells { split_cells result.border.0 (L.byte result.low) (R.byte result.high) ≡ split_cells border.0 (L.byte low) (R.byte high) }
        ensures border { result.border ≡ border }
        ensures low { result.low ≡ low }
        ensures high { result.high ≡ high }
    {
        Split { border, low, high }
    }
}

impl<L: Bus, R: Bus> Bus for Split<L, R> {
    ghost byte = { λ s. split_cells s.border.0 (L.byte s.low) (R.byte s.high) };

    ghost sound = { λ s. split_sound s.border.0 (L.byte s.low) (R.byte s.high) (L.sound s.low) (R.sound s.high) };

    ghost layout = { λ s. number s.border.0 ∷ cells (hidden_cells (shown_low s.border.0) (L.byte s.low)) ∷ cells (hidden_cells (shown_high s.border.0) (R.byte s.high)) ∷ (L.layout s.low ++ R.layout s.high) };

    #[inline(always)]
    fn read(&mut self, access: Access) -> Result<u32, Refusal> {
        check_border(self.border).map_err(|_| access.missing())?;
        if access.at.0 < self.border.0 {
            self.low.read(access)
        } else {
            self.high.read(access)
        }
    }

    #[inline(always)]
    fn write(&mut self, access: Access, value: u32) -> Result<(), Refusal> {
        check_border(self.border).map_err(|_| access.missing())?;
        if access.at.0 < self.border.0 {
            self.low.write(access, value)
        } else {
            self.high.write(access, value)
        }
    }
}
