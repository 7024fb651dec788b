// What the lines of a set-up answer.
ghost use Rattle.std.specs.Prelude.{◌≡◌};
ghost use Rattle.session.specs.Answers.{line_answer_number, line_answer_address, line_refusal_number, line_refusal_address};

use bus::{PhysAddr, Refusal};
use machine::{CallRefusal, RunReport};
use pages::VirtAddr;

// What a line did.
#[derive(Clone, Copy, PartialEq, Eq, Debug)]
pub enum LineAnswer {
    // The word is in memory.
    Written,
    // How far the run came, and the PC then.
    Ran { report: RunReport, pc: VirtAddr },
    Register { number: u32, value: u32 },
}

// Why a line was refused.
#[derive(Clone, Copy, PartialEq, Eq, Debug)]
pub enum LineRefusal {
    // It is no line of a set-up, or has no LF.
    NoForm,
    // It writes after the first run, or reads a register before it.
    OutOfPlace,
    // The bus refused to write.
    Bus(Refusal),
    // The core refused the run or the register.
    Call(CallRefusal),
    // The listing has no room for a line; this one was not read.
    ListingFull,
}

impl LineAnswer {
    // 0, or the number of the refused step that cut a run short.
    pub fn number(&self) -> u32
        ensures { result ≡ line_answer_number self.now }
    {
        match self {
            LineAnswer::Ran { report, .. } => report.number(),
            LineAnswer::Written | LineAnswer::Register { .. } => 0,
        }
    }

    // The physical address of that step's access.
    pub fn address(&self) -> Option<PhysAddr>
        ensures { result ≡ line_answer_address self.now }
    {
        match self {
            LineAnswer::Ran { report, .. } => report.address(),
            LineAnswer::Written | LineAnswer::Register { .. } => None,
        }
    }
}

impl LineRefusal {
    pub fn number(&self) -> u32
        ensures { result ≡ line_refusal_number self.now }
    {
        match self {
            LineRefusal::NoForm => 10,
            LineRefusal::OutOfPlace => 11,
            LineRefusal::Bus(refusal) => refusal.number(),
            LineRefusal::Call(refusal) => refusal.number(),
            LineRefusal::ListingFull => 12,
        }
    }

    // The physical address that the bus named.
    pub fn address(&self) -> Option<PhysAddr>
        ensures { result ≡ line_refusal_address self.now }
    {
        match self {
            LineRefusal::Bus(refusal) => refusal.address(),
            LineRefusal::NoForm
            | LineRefusal::OutOfPlace
            | LineRefusal::Call(_)
            | LineRefusal::ListingFull => None,
        }
    }
}
