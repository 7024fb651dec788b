// What an instruction asks for, with the values of its registers.
use csr::Exception;
use isa::{LoadOp, Reg, StoreOp, TlbOp};
use pages::VirtAddr;

// An address in an action is the program's own: only the step translates it and asks the bus. An action that is not privileged
// alters the general registers, the PC, memory and the link alone, unless it comes to an exception.
#[derive(Clone, Copy, PartialEq, Eq, Debug)]
pub enum Action {
    // GR[rd] gets the value, and the program goes on at `next`.
    Write {
        rd: Reg,
        value: u32,
        next: VirtAddr,
    },
    Go {
        next: VirtAddr,
    },
    Load {
        op: LoadOp,
        rd: Reg,
        at: VirtAddr,
    },
    Store {
        op: StoreOp,
        at: VirtAddr,
        value: u32,
    },
    // LL.W
    LoadLinked {
        rd: Reg,
        at: VirtAddr,
    },
    // SC.W
    StoreConditional {
        rd: Reg,
        at: VirtAddr,
        value: u32,
    },
    // A CACOP of the Hit kind: there is no cache, so its address is translated and nothing more.
    Probe {
        at: VirtAddr,
    },
    Raise(Exception),
    Privileged(PrivilegedAction),
}

// What PLV0 alone may do.
#[derive(Clone, Copy, PartialEq, Eq, Debug)]
pub enum PrivilegedAction {
    Csrrd {
        rd: Reg,
        csr: u32,
    },
    Csrwr {
        rd: Reg,
        csr: u32,
        value: u32,
    },
    Csrxchg {
        rd: Reg,
        csr: u32,
        value: u32,
        mask: u32,
    },
    Tlb(TlbOp),
    // With the values of its two registers.
    Invtlb {
        op: u32,
        asid_word: u32,
        address: u32,
    },
    Ertn,
    Idle,
    // A CACOP of another kind.
    Cacop,
}
