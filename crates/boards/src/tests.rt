use crate::latch::Latch;
use bus::{Access, Bus, PhysAddr, Refusal, Span};
use calls::{Answer, Call, perform_in_memory};
use layers::{Lock, Shift, Split};
use parts::{Bank, Image, Ports};

fn access(at: u32, width: u32) -> Access {
    Access::new(PhysAddr(at), width)
}

#[test]
fn the_last_word_of_the_space(rt: HostRuntime) {
    let mut memory = [1u8, 2, 3, 4];
    let mut bank = Bank::new(PhysAddr(0xffff_fffc), &mut memory);
    assert_eq!(rt; bank.read(access(0xffff_fffc, 4)), Ok(0x0403_0201));
    let mut longer = [0u8; 8];
    let mut bank = Bank::new(PhysAddr(0xffff_fffc), &mut longer);
    assert_eq!(rt;
        bank.read(access(0xffff_fffc, 4)),
        Err(Refusal::Absent(PhysAddr(0xffff_fffc)))
    );
}

#[test]
fn a_window_over_the_whole_space(rt: HostRuntime) {
    let mut window = Shift::new(
        Span::new(PhysAddr(0), 0x1_0000_0000),
        Ports::new(PhysAddr(0xffff_ffc0)),
    );
    assert_eq!(rt; window.write(access(0xffff_fffc, 4), 0x1122_3344), Ok(()));
    assert_eq!(rt; window.read(access(0xffff_fffe, 2)), Ok(0x1122));
}

#[test]
fn the_lowest_byte_at_fault_through_two_windows(rt: HostRuntime) {
    let inner = Shift::new(Span::new(PhysAddr(0x100), 0x10), Latch::new(0x42));
    let mut outer = Shift::new(Span::new(PhysAddr(0x8000_0000), 0x1000), inner);
    assert_eq!(rt;
        outer.read(access(0x8000_0100, 4)),
        Err(Refusal::Absent(PhysAddr(0x8000_0102)))
    );
    assert_eq!(rt;
        outer.write(access(0x8000_0100, 2), 7),
        Err(Refusal::Fixed(PhysAddr(0x8000_0101)))
    );
    assert_eq!(rt; outer.write(access(0x8000_0100, 1), 0x1ff), Ok(()));
    assert_eq!(rt; outer.read(access(0x8000_0100, 2)), Ok(0x42ff));
}

#[test]
fn a_lock_over_a_lent_board(rt: HostRuntime) {
    let rom = [9u8, 8, 7, 6];
    let mut board = Split::new(
        PhysAddr(0x40),
        Ports::new(PhysAddr(0)),
        Image::new(PhysAddr(0x40), &rom),
    );
    let mut locked = Lock::new(Span::new(PhysAddr(0x20), 0x100), &mut board);
    assert_eq!(rt;
        locked.write(access(0x20, 4), 1),
        Err(Refusal::Fixed(PhysAddr(0x20)))
    );
    assert_eq!(rt;
        locked.write(access(0x44, 4), 1),
        Err(Refusal::Absent(PhysAddr(0x44)))
    );
    assert_eq!(rt; locked.write(access(0x1c, 4), 5), Ok(()));
    drop(locked);
    assert_eq!(rt; board.write(access(0x20, 4), 1), Ok(()));
    assert_eq!(rt; board.read(access(0x1c, 4)), Ok(5));
}

#[test]
fn memory_around_a_write(rt: HostRuntime) {
    let mut memory = [0xaau8; 8];
    let write = Call::Write {
        access: access(0x102, 2),
        value: 0x1234_5678,
    };
    let done = perform_in_memory(PhysAddr(0x100), &mut memory, write);
    assert_eq!(rt; done, Answer::Write(Ok(())));
    assert_eq!(rt; memory, [0xaa, 0xaa, 0x78, 0x56, 0xaa, 0xaa, 0xaa, 0xaa]);
    let refused = perform_in_memory(PhysAddr(0x101), &mut memory, write);
    assert_eq!(rt;
        refused,
        Answer::Write(Err(Refusal::Absent(PhysAddr(0x102))))
    );
    assert_eq!(rt; memory, [0xaa, 0xaa, 0x78, 0x56, 0xaa, 0xaa, 0xaa, 0xaa]);
}
