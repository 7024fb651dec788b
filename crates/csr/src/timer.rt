// The timer (TID, TCFG, TVAL), and the counter that programs read as the time.
ghost use Rattle.std.specs.Prelude.{◌≡◌};
ghost use Rattle.csr.specs.Timer.{start_value, tcfg, with_tcfg, after_beat, runs_out};

use crate::words::flag;
use pages::Bits;

#[derive(Clone, Copy, PartialEq, Eq, Debug)]
pub struct Timer {
    pub counter: u64,
    pub tid: u32,
    pub en: bool,
    pub periodic: bool,
    pub init_val: Bits<30>,
    pub tval: u32,
}

impl Timer {
    pub fn tcfg(&self) -> u32
        ensures { result ≡ tcfg self.now }
    {
        u32::from(self.en) | u32::from(self.periodic) << 1 | self.init_val.value() << 2
    }

    // With En 1 TVAL becomes 4 times InitVal.
    pub fn set_tcfg(&mut self, word: u32)
        ensures { self.new ≡ with_tcfg self.old word }
    {
        self.en = flag(word, 0);
        self.periodic = flag(word, 1);
        self.init_val = Bits::of_low_bits(word >> 2);
        if self.en {
            self.tval = self.start_value();
        }
    }

    fn start_value(&self) -> u32
        ensures { result ≡ start_value self.now.init_val }
    {
        self.init_val.value() << 2
    }

    // The beat that ends a step; whether the timer reached 0 by it.
    pub fn beat(&mut self) -> bool
        ensures state { self.new ≡ after_beat self.old }
        ensures reached { result ≡ runs_out self.old }
    {
        self.counter = self.counter.wrapping_add(1);
        if !self.en || self.tval == 0 {
            return false;
        }
        self.tval -= 1;
        let reached = self.tval == 0;
        if reached && self.periodic {
            self.tval = self.start_value();
        }
        reached
    }
}
