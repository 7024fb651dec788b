// The first program on a bank; how large a core is; numbers of answers, as the documents have them; and what no contract can say: that there is memory
// for a list's answers, and how often a step asks the bus, whose meaning is the same after a read.
use crate::{Sum, add_up};
use bus::{Access, Bus, PhysAddr, Refusal};
use csr::Cause;
use driver::{Answer, Call, drive};
use machine::{CallRefusal, Event, RunningCore, UnresetCore};
use pages::VirtAddr;
use parts::Bank;

const START: PhysAddr = PhysAddr(0x1c00_0000);

const FIRST_PROGRAM: [u8; 12] = [
    0x04, 0xfc, 0xbf, 0x02, 0x85, 0x10, 0x10, 0x00, 0x00, 0x00, 0x00, 0x50,
];

#[test]
fn the_first_program_on_a_bank(rt: HostRuntime) {
    let mut memory = FIRST_PROGRAM;
    let mut bank = Bank::new(START, &mut memory);
    let sum = Sum {
        r4: 0xffff_ffff,
        r5: 0xffff_fffe,
        pc: VirtAddr(0x1c00_0008),
        counter: 3,
    };
    assert_eq!(rt; add_up(&mut bank), sum);
}

#[test]
fn a_core_is_below_4_kib(rt: HostRuntime) {
    assert!(rt; size_of::<RunningCore>() < 4096);
}

#[test]
fn a_list_of_two_calls(rt: HostRuntime) {
    let mut memory = FIRST_PROGRAM;
    let mut bank = Bank::new(START, &mut memory);
    let mut core = UnresetCore.reset();
    let calls = [Call::Step { levels: 0 }, Call::Register(4)];
    let answers = drive(rt.alloc(), &mut core, &mut bank, &calls);
    assert_eq!(rt;
        answers.as_deref().ok(),
        Some(
            &[
                Answer::Step(Ok(Event::Done)),
                Answer::Register(Ok(0xffff_ffff))
            ][..]
        )
    );
}

#[test]
fn numbers_of_answers(rt: HostRuntime) {
    let events = [Event::Done, Event::Waiting, Event::Exception(Cause::Sys)];
    assert_eq!(rt; events.map(Event::number), [0, 1, 2]);
    let refusals = [
        CallRefusal::NoRegister,
        CallRefusal::NoControlRegister,
        CallRefusal::NoTlbEntry,
        CallRefusal::RunTooLong,
    ];
    assert_eq!(rt; refusals.map(CallRefusal::number), [3, 4, 5, 6]);
}

// A bus that counts what it is asked.
#[derive(Drop)]
struct Counting<B> {
    inner: B,
    reads: u32,
    writes: u32,
}

impl<B: Bus> Bus for Counting<B> {
    ghost byte = { λ s. B.byte s.inner };

    ghost sound = { λ s. B.sound s.inner };

    ghost layout = { λ s. B.layout s.inner };

    fn read(&mut self, access: Access) -> Result<u32, Refusal> {
        self.reads = self.reads.wrapping_add(1);
        self.inner.read(access)
    }

    fn write(&mut self, access: Access, value: u32) -> Result<(), Refusal> {
        self.writes = self.writes.wrapping_add(1);
        self.inner.write(access, value)
    }
}

// `pcaddu12i r4, 0`, `sc.w r5, r4, 0`, `ll.w r5, r4, 0`, `sc.w r5, r4, 48`, `cacop 16, r4, 0`, `preld 0, r4, 0`, `st.b r5, r4, 48`, and
// `ld.w r5, r4, 2`, which is misaligned.
const ASKING: [u8; 52] = [
    0x04, 0x00, 0x00, 0x1c, 0x85, 0x00, 0x00, 0x21, 0x85, 0x00, 0x00, 0x20, 0x85, 0x30, 0x00, 0x21,
    0x90, 0x00, 0x00, 0x06, 0x80, 0x00, 0xc0, 0x2a, 0x85, 0xc0, 0x00, 0x29, 0x85, 0x08, 0x80, 0x28,
    0, 0, 0, 0, 0, 0, 0, 0, 0, 0, 0, 0, 0, 0, 0, 0, 0, 0, 0, 0,
];

// The reads and writes so far, after each of its steps and after the refused fetch of a handler that is not there.
const ASKED: [(u32, u32); 9] = [
    (1, 0),
    (2, 0),
    (4, 0),
    (5, 1),
    (6, 1),
    (7, 1),
    (8, 2),
    (9, 2),
    (10, 2),
];

#[test]
fn each_access_is_asked_for_once(rt: HostRuntime) {
    let mut memory = ASKING;
    let mut board = Counting {
        inner: Bank::new(START, &mut memory),
        reads: 0,
        writes: 0,
    };
    let mut core = UnresetCore.reset();
    for asked in ASKED {
        let _ = core.step(&mut board, 0);
        assert_eq!(rt; (board.reads, board.writes), asked);
    }
}

#[test]
fn a_run_asks_as_its_steps_do(rt: HostRuntime) {
    let mut memory = ASKING;
    let mut board = Counting {
        inner: Bank::new(START, &mut memory),
        reads: 0,
        writes: 0,
    };
    let mut core = UnresetCore.reset();
    let _ = core.run(&mut board, 9, 0);
    assert_eq!(rt; (board.reads, board.writes), (10, 2));
}
