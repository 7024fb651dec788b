// Addresses of accesses and of branches.
ghost use Rattle.std.specs.Prelude.{◌≡◌};
ghost use Rattle.actions.specs.Addresses.{by_si12, by_si14, from_pc, by_offs16};

use crate::user::UserState;
use isa::{Field, Reg};
use pages::VirtAddr;
use word::{add, offset, sign_extend};

impl UserState {
    pub(crate) fn by_si12(&self, rj: Reg, si12: Field<12>) -> VirtAddr
        ensures { result ≡ by_si12 self.now rj si12 }
    {
        VirtAddr(add(self.general.read(rj), sign_extend::<12>(si12.value())))
    }

    pub(crate) fn by_si14(&self, rj: Reg, si14: Field<14>) -> VirtAddr
        ensures { result ≡ by_si14 self.now rj si14 }
    {
        VirtAddr(add(self.general.read(rj), offset::<14>(si14.value())))
    }

    pub(crate) fn by_offs16(&self, rj: Reg, offs16: Field<16>) -> VirtAddr
        ensures { result ≡ by_offs16 self.now rj offs16 }
    {
        VirtAddr(add(self.general.read(rj), offset::<16>(offs16.value())))
    }

    pub(crate) fn from_pc<const N: u32>(&self, offs: Field<N>) -> VirtAddr
        ensures { result ≡ from_pc N self.now offs.entry }
    {
        VirtAddr(add(self.pc.0, offset::<N>(offs.value())))
    }
}
