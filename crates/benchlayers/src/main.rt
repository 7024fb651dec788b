//! Runs the set-up on standard input as `tintrun` does, but on a board of a bank under a shift and a split. For the benchmark.
#![tactic(auto)]

use bus::{PhysAddr, Span};
use layers::{Shift, Split};
use parts::{Bank, Image};
use session::{BANK_BASE, BANK_BYTES, Session, read_text};
use std::io;

const BORDER: PhysAddr = PhysAddr(0x8000_0000);

fn main(rt: HostRuntime) -> anyhow::Result<()> {
    let text = read_text(rt.alloc(), rt.reader())?;
    let mut memory = [0u8; BANK_BYTES];
    let bank = Bank::new(PhysAddr(0), &mut memory);
    let shifted = Shift::new(Span::new(BANK_BASE, BANK_BYTES as u64), bank);
    let board = Split::new(BORDER, shifted, Image::new(BORDER, &[]));
    Session::new(board).print(text.as_slice(), &mut io::writer(&rt))?;
    Ok(())
}
