// The driver's calls and their answers, as values.
ghost use Rattle.std.specs.Prelude.{◌≡◌};
ghost use Rattle.driver.specs.Answers.{answer_number};

use machine::{CallRefusal, Event, RunReport, StepRefusal};
use pages::VirtAddr;
use tlb::Entry;

#[derive(Clone, Copy, PartialEq, Eq, Debug)]
pub enum Call {
    Reset,
    // With the levels of the eight hardware lines.
    Step { levels: u8 },
    Run { count: u32, levels: u8 },
    Pc,
    Register(u32),
    ControlRegister(u32),
    TlbEntry(u32),
}

// By the kind of call.
#[derive(Clone, Copy, PartialEq, Eq, Debug)]
pub enum Answer {
    Reset,
    Step(Result<Event, StepRefusal>),
    Run(Result<RunReport, CallRefusal>),
    Pc(VirtAddr),
    Register(Result<u32, CallRefusal>),
    ControlRegister(Result<u32, CallRefusal>),
    TlbEntry(Result<Entry, CallRefusal>),
}

impl Answer {
    // 0 where the call was done, 1 or 2 for a step that waited or took an exception, or the number of the refusal.
    pub fn number(&self) -> u32
        ensures { result ≡ answer_number self.now }
    {
        match self {
            Answer::Step(Ok(event)) => event.number(),
            Answer::Step(Err(refusal)) => refusal.number(),
            Answer::Run(Ok(report)) => report.number(),
            Answer::Run(Err(refusal))
            | Answer::Register(Err(refusal))
            | Answer::ControlRegister(Err(refusal))
            | Answer::TlbEntry(Err(refusal)) => refusal.number(),
            Answer::Reset
            | Answer::Pc(_)
            | Answer::Register(Ok(_))
            | Answer::ControlRegister(Ok(_))
            | Answer::TlbEntry(Ok(_)) => 0,
        }
    }
}
