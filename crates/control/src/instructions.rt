// CSRRD, CSRWR and CSRXCHG.
ghost use Rattle.std.specs.Prelude.{◌≡◌, Some};
ghost use Rattle.control.specs.Numbers.{csr_numbered};
ghost use Rattle.control.specs.Registers.{read_of};
ghost use Rattle.control.specs.Fields.{ReadsBack};
ghost use Rattle.control.specs.Instructions.{csrrd, csrwr, csrxchg, exchanged};

use crate::number::Csr;
use crate::registers::Registers;

// The bits of the word where the mask is 1, and the old ones where it is 0.
fn exchanged(old: u32, word: u32, mask: u32) -> u32
    ensures { result ≡ exchanged old word mask }
{
    (old & !mask) | (word & mask)
}

impl Registers {
    pub fn csrrd(&self, number: u32) -> u32
        ensures { result ≡ csrrd self.now (csr_numbered number) }
    {
        match Csr::numbered(number) {
            Some(csr) => self.read(csr),
            None => 0,
        }
    }

    #[tactic(auto, using(crate::proofs::ReadingBack::reads_back))]
    fn exchange(&mut self, csr: Csr, word: u32, mask: u32) -> u32
        ensures value { result ≡ read_of self.old csr }
        ensures state { self.new ≡ csrxchg self.old (Some csr) word mask }
        ensures reads_back { ReadsBack self.old self.new (Some csr) (exchanged (read_of self.old csr) word mask) }
    {
        let old = self.read(csr);
        self.write(csr, exchanged(old, word, mask));
        old
    }

    #[tactic(auto, using(crate::proofs::Exchanging::whole_exchanged))]
    pub fn csrwr(&mut self, number: u32, word: u32) -> u32
        ensures value { result ≡ csrrd self.old (csr_numbered number) }
        ensures state { self.new ≡ csrwr self.old (csr_numbered number) word }
        ensures reads_back { ReadsBack self.old self.new (csr_numbered number) word }
    {
        match Csr::numbered(number) {
            Some(csr) => self.exchange(csr, word, u32::MAX),
            None => 0,
        }
    }

    pub fn csrxchg(&mut self, number: u32, word: u32, mask: u32) -> u32
        ensures value { result ≡ csrrd self.old (csr_numbered number) }
        ensures state { self.new ≡ csrxchg self.old (csr_numbered number) word mask }
        ensures reads_back { ReadsBack self.old self.new (csr_numbered number) (exchanged (csrrd self.old (csr_numbered number)) word mask) }
    {
        match Csr::numbered(number) {
            Some(csr) => self.exchange(csr, word, mask),
            None => 0,
        }
    }
}
