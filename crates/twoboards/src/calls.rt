// The calls that both machines get.
use driver::Call;

// More than the first maker's turn takes; in the last ones the supervisor waits.
const STEPS: usize = 400;

// For each step the PC, the step itself, and what the program has learnt.
pub(crate) const STEP_CALLS: usize = 3 * STEPS;

// The register in which a try leaves what it learns.
const LEARNT: u32 = 9;

const OTHER_CALLS: usize = 13;

pub(crate) const CALLS: usize = STEP_CALLS + OTHER_CALLS;

// One run and three read-outs are refused. A step with levels that nothing enables finds the supervisor waiting.
const OTHERS: [Call; OTHER_CALLS] = [
    Call::Run {
        count: 65_537,
        levels: 0,
    },
    Call::Run {
        count: 100,
        levels: 0,
    },
    Call::Step { levels: 0x80 },
    Call::Register(10),
    Call::Register(32),
    Call::ControlRegister(0x5),
    Call::ControlRegister(0x18),
    Call::ControlRegister(0x3),
    Call::TlbEntry(0),
    Call::TlbEntry(1),
    Call::TlbEntry(2),
    Call::TlbEntry(3),
    Call::TlbEntry(16),
];

// The first maker's turn, step by step, and calls of every kind while the supervisor waits.
pub(crate) fn first_turn() -> [Call; CALLS] {
    let mut calls = [Call::Register(LEARNT); CALLS];
    for step in 0..STEPS {
        calls[3 * step] = Call::Pc;
        calls[3 * step + 1] = Call::Step { levels: 0 };
    }
    calls[STEP_CALLS..].copy_from_slice(&OTHERS);
    calls
}

// Line 0 wakes the supervisor, which gives the turn to the second maker.
pub(crate) const SECOND_TURN: [Call; 5] = [
    Call::Step { levels: 0x01 },
    Call::Run {
        count: 100,
        levels: 0,
    },
    Call::Pc,
    Call::Register(4),
    Call::Register(5),
];
