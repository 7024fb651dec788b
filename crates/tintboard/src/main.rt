//! Loads a tint table onto a board through its bus, reads it back in every width, and shows what the board refuses.
#![tactic(auto)]

mod show;
mod table;

use boards::Latch;
use bus::{Access, Bus, PhysAddr, Span};
use calls::{Call, perform_in_memory};
use layers::{Lock, Shift, Split};
use parts::{Bank, Image, Ports};

const RAM: PhysAddr = PhysAddr(0);

const TABLE: PhysAddr = PhysAddr(0x40);

const ROM: PhysAddr = PhysAddr(0x1c00_0000);

const DEVICES: PhysAddr = PhysAddr(0x1fe0_0000);

const LATCH: PhysAddr = PhysAddr(0x1fe0_0100);

// Twice as long as the port block behind it, so that half of the window shows nothing.
const WINDOW_BYTES: u64 = 128;

fn main(rt: HostRuntime) -> anyhow::Result<()> {
    run(&rt)
}

fn run(rt: &HostRuntime) -> anyhow::Result<()> {
    check_numbers(rt)?;
    let mut ram = [0u8; 256];
    let rom = [0x00u8, 0x00, 0x48, 0x02, 0x78, 0x56, 0x34, 0x12];
    let bank = Bank::new(RAM, &mut ram);
    let devices = Shift::new(Span::new(DEVICES, WINDOW_BYTES), Ports::new(PhysAddr(0)));
    let upper = Split::new(DEVICES, Image::new(ROM, &rom), devices);
    let mut board = Split::new(ROM, bank, upper);
    table::load(rt, &mut board, TABLE)?;
    table::read_back(rt, &mut board, TABLE)?;
    use_devices(rt, &mut board)?;
    try_refused(rt, &mut board)?;
    try_locked(rt, &mut board)?;
    drop(board);
    try_across(rt)?;
    try_unusable(rt)?;
    keep_memory(rt)
}

fn read(at: u32, width: u32) -> Call {
    Call::Read(Access::new(PhysAddr(at), width))
}

fn write(at: u32, width: u32, value: u32) -> Call {
    Call::Write {
        access: Access::new(PhysAddr(at), width),
        value,
    }
}

// Numbers that a board may be built of, and numbers that it may not.
fn check_numbers(rt: &HostRuntime) -> anyhow::Result<()> {
    println!(rt; "numbers")?;
    show::range(rt, Span::new(RAM, 256))?;
    show::range(rt, Span::new(PhysAddr(0xffff_fffc), 4))?;
    show::range(rt, Span::new(RAM, 0x1_0000_0000))?;
    show::range(rt, Span::new(PhysAddr(2), 256))?;
    show::range(rt, Span::new(RAM, 0))?;
    show::range(rt, Span::new(PhysAddr(0xffff_fffc), 8))?;
    show::border(rt, ROM)?;
    show::border(rt, PhysAddr(0x1c00_0002))?;
    Ok(())
}

// The image, and the ports behind their window.
fn use_devices<B: Bus>(rt: &HostRuntime, board: &mut B) -> anyhow::Result<()> {
    println!(rt; "image and ports")?;
    let list = [
        read(ROM.0, 4),
        read(0x1c00_0006, 2),
        read(DEVICES.0, 4),
        write(0x1fe0_003c, 4, 0xcafe_f00d),
        read(0x1fe0_003e, 2),
    ];
    show::calls(rt, board, &list)
}

// Widths and addresses that do not fit, then nothing at the address, then a fixed byte.
fn try_refused<B: Bus>(rt: &HostRuntime, board: &mut B) -> anyhow::Result<()> {
    println!(rt; "refused")?;
    let list = [
        read(0x40, 3),
        read(0x40, 0),
        read(0x42, 4),
        write(0x41, 2, 1),
        read(0x100, 4),
        write(0x100, 1, 1),
        read(0x1c00_0008, 4),
        read(0x1fe0_0040, 4),
        read(0x1fe0_0080, 4),
        read(0xffff_fffc, 4),
        write(0x1c00_0002, 2, 1),
    ];
    show::calls(rt, board, &list)
}

// The board, lent to a lock over the table, and then again without it.
fn try_locked<B: Bus + Drop>(rt: &HostRuntime, board: &mut B) -> anyhow::Result<()> {
    println!(rt; "table locked")?;
    let mut locked = Lock::new(table::span(TABLE), &mut *board);
    let list = [
        write(0x40, 1, 0x63),
        read(0x40, 1),
        write(0x42, 4, 1),
        write(0x50, 4, 0x1234_5678),
        write(0x100, 4, 1),
    ];
    show::calls(rt, &mut locked, &list)?;
    drop(locked);
    println!(rt; "table open again")?;
    show::calls(rt, board, &[write(0x40, 1, 0x63), read(0x40, 4)])
}

// A device whose bytes are not all alike: a refusal names the lowest byte at fault, and not the address of the call.
fn try_across(rt: &HostRuntime) -> anyhow::Result<()> {
    println!(rt; "across a device's end")?;
    let mut window = Shift::new(Span::new(LATCH, 4), Latch::new(0x42));
    let list = [
        write(LATCH.0, 1, 5),
        read(LATCH.0, 2),
        write(LATCH.0, 2, 5),
        read(LATCH.0, 4),
        write(LATCH.0, 4, 5),
    ];
    show::calls(rt, &mut window, &list)
}

// Parts and layers that are made of refused numbers all the same.
fn try_unusable(rt: &HostRuntime) -> anyhow::Result<()> {
    println!(rt; "made of refused numbers")?;
    let mut memory = [0u8; 8];
    let unaligned = PhysAddr(2);
    let zero = PhysAddr(0);
    show::calls(rt, &mut Image::new(unaligned, &[0; 8]), &[read(4, 4)])?;
    show::calls(rt, &mut Ports::new(unaligned), &[read(4, 4)])?;
    show::calls(
        rt,
        &mut Bank::new(unaligned, &mut memory),
        &[write(4, 4, 1)],
    )?;
    show::calls(
        rt,
        &mut Shift::new(Span::new(zero, 6), Ports::new(zero)),
        &[read(0, 4)],
    )?;
    show::calls(
        rt,
        &mut Lock::new(Span::new(zero, 6), Ports::new(zero)),
        &[read(0, 4)],
    )?;
    let mut split = Split::new(unaligned, Ports::new(zero), Ports::new(zero));
    show::calls(rt, &mut split, &[write(0, 4, 1)])
}

// One call on a bank, and what its memory holds once the bank is gone.
fn keep_memory(rt: &HostRuntime) -> anyhow::Result<()> {
    println!(rt; "memory afterwards")?;
    let mut memory = [0x11u8; 8];
    let call = write(0x1002, 2, 0xbeef);
    let answer = perform_in_memory(PhysAddr(0x1000), &mut memory, call);
    println!(rt; "{call}: {answer}")?;
    print!(rt; "memory:")?;
    for byte in memory {
        print!(rt; " {byte:02X}")?;
    }
    println!(rt; "")?;
    Ok(())
}
