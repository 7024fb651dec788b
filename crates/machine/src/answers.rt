// What calls of the core answer.
ghost use Rattle.std.specs.Prelude.{◌≡◌};
ghost use Rattle.machine.specs.Answers.{event_number, event_codes, step_refusal_number, step_refusal_address, report_number, report_address, call_refusal_number};

use bus::{PhysAddr, Refusal};
use csr::Cause;
use pages::{AccessKind, VirtAddr};

// What an accepted step did.
#[derive(Clone, Copy, PartialEq, Eq, Debug)]
pub enum Event {
    Done,
    // It took the levels and did the beat, and nothing else.
    Waiting,
    Exception(Cause),
}

// A step whose bus call was refused: for what, and at which PC.
#[derive(Clone, Copy, PartialEq, Eq, Debug)]
pub struct StepRefusal {
    pub by_bus: Refusal,
    pub kind: AccessKind,
    pub pc: VirtAddr,
}

// How many steps a run made, and the refused step that cut it short, if one did.
#[derive(Clone, Copy, PartialEq, Eq, Debug)]
pub struct RunReport {
    pub steps: u32,
    pub refusal: Option<StepRefusal>,
}

// Why a call was not taken.
#[derive(Clone, Copy, PartialEq, Eq, Debug)]
pub enum CallRefusal {
    NoRegister,
    NoControlRegister,
    NoTlbEntry,
    RunTooLong,
}

impl Event {
    pub fn number(self) -> u32
        ensures { result ≡ event_number self }
    {
        match self {
            Event::Done => 0,
            Event::Waiting => 1,
            Event::Exception(_) => 2,
        }
    }

    // Ecode and EsubCode.
    pub fn codes(self) -> Option<(u32, u32)>
        ensures { result ≡ event_codes self }
    {
        match self {
            Event::Done | Event::Waiting => None,
            Event::Exception(cause) => Some((cause.ecode(), cause.esubcode())),
        }
    }
}

impl StepRefusal {
    pub fn number(self) -> u32
        ensures { result ≡ step_refusal_number self }
    {
        self.by_bus.number()
    }

    pub fn address(self) -> Option<PhysAddr>
        ensures { result ≡ step_refusal_address self }
    {
        self.by_bus.address()
    }
}

impl RunReport {
    // 0, or the number of the refused step that cut the run short.
    pub fn number(self) -> u32
        ensures { result ≡ report_number self }
    {
        match self.refusal {
            Some(refusal) => refusal.number(),
            None => 0,
        }
    }

    // The physical address of that step's access.
    pub fn address(self) -> Option<PhysAddr>
        ensures { result ≡ report_address self }
    {
        self.refusal?.address()
    }
}

impl CallRefusal {
    pub fn number(self) -> u32
        ensures { result ≡ call_refusal_number self }
    {
        match self {
            CallRefusal::NoRegister => 3,
            CallRefusal::NoControlRegister => 4,
            CallRefusal::NoTlbEntry => 5,
            CallRefusal::RunTooLong => 6,
        }
    }
}
