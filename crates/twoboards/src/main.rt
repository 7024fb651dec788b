//! Two machines on boards of different kinds, where the second maker's formula book and valves differ, are given the same calls. The first
//! maker's program tries to learn them in every way that it knows. Then the second maker has its turn.
#![tactic(auto)]

mod calls;
mod images;
mod places;
mod show;

use bus::{Access, Bus, PhysAddr, Refusal, Span};
use calls::{SECOND_TURN, first_turn};
use driver::{drive, lockstep};
use images::{FIRST_TRY, PROGRAM};
use layers::{Lock, Shift, Split};
use machine::{RunningCore, UnresetCore};
use parts::{Bank, Image};
use places::{
    BOOK, FIRST_MAKER_AT, HANDLER_AT, PAGE, PAGE_BYTES, REFILL_AT, ROM, ROM_BYTES, SECOND_MAKER_AT,
    VALVES, valves_span,
};
use valves::Valves;

fn main(rt: HostRuntime) -> anyhow::Result<()> {
    with_left_board(&rt)
}

// On the left one bank for the page and the book, and a ROM image.
fn with_left_board(rt: &HostRuntime) -> anyhow::Result<()> {
    let mut pages = [0u8; 2 * PAGE_BYTES];
    let mut rom = [0u8; ROM_BYTES];
    let mut valves = Valves::new();
    load(&mut Bank::new(PAGE, &mut pages), PAGE, &images::OWN_WORDS)?;
    load(&mut Bank::new(PAGE, &mut pages), BOOK, &images::LEFT_BOOK)?;
    load_rom(&mut rom)?;
    let shifted = Shift::new(valves_span(), &mut valves);
    let upper = Split::new(ROM, shifted, Image::new(ROM, &rom));
    let mut left = Split::new(VALVES, Bank::new(PAGE, &mut pages), upper);
    with_right_board(rt, &mut left)?;
    show::show_order(rt, "left", valves.take_order())?;
    Ok(())
}

// On the right a bank for each page, and the ROM a locked bank. Its valves have poured before.
fn with_right_board<L: Bus>(rt: &HostRuntime, left: &mut L) -> anyhow::Result<()> {
    let mut page = [0u8; PAGE_BYTES];
    let mut book = [0u8; PAGE_BYTES];
    let mut rom = [0u8; ROM_BYTES];
    let mut valves = Valves::new();
    load(&mut Bank::new(PAGE, &mut page), PAGE, &images::OWN_WORDS)?;
    load(&mut Bank::new(BOOK, &mut book), BOOK, &images::RIGHT_BOOK)?;
    load_rom(&mut rom)?;
    load(&mut valves, PhysAddr(0), &images::RIGHT_ORDER)?;
    show::show_order(rt, "right, before", valves.take_order())?;
    let locked = Lock::new(Span::new(ROM, ROM_BYTES as u64), Bank::new(ROM, &mut rom));
    let upper = Split::new(ROM, Shift::new(valves_span(), &mut valves), locked);
    let lower = Split::new(BOOK, Bank::new(PAGE, &mut page), Bank::new(BOOK, &mut book));
    let mut right = Split::new(VALVES, lower, upper);
    compare(rt, left, &mut right)?;
    show::show_order(rt, "right", valves.take_order())?;
    Ok(())
}

// The supervisor and both programs.
fn load_rom(rom: &mut [u8]) -> Result<(), Refusal> {
    let mut bank = Bank::new(ROM, rom);
    load(&mut bank, ROM, &images::START)?;
    load(&mut bank, ROM.wrapping_add(HANDLER_AT), &images::HANDLER)?;
    load(&mut bank, ROM.wrapping_add(REFILL_AT), &images::REFILL)?;
    let first = ROM.wrapping_add(FIRST_MAKER_AT);
    let tries = first.wrapping_add(FIRST_TRY - PROGRAM);
    load(&mut bank, first, &images::FIRST_ADDRESSES)?;
    load(&mut bank, tries, &images::tried_words())?;
    let second = ROM.wrapping_add(SECOND_MAKER_AT);
    load(&mut bank, second, &images::SECOND_PROGRAM)
}

// Writes the words from `at` on.
fn load<B: Bus>(bus: &mut B, at: PhysAddr, words: &[u32]) -> Result<(), Refusal> {
    let mut next = at.0;
    for word in words {
        bus.write(Access::new(PhysAddr(next), 4), *word)?;
        next = next.wrapping_add(4);
    }
    Ok(())
}

// Gives both machines the calls, prints what they answer and what is withheld before and after, and then gives the second maker its turn on
// each.
fn compare<L: Bus, R: Bus>(
    rt: &HostRuntime,
    left_board: &mut L,
    right_board: &mut R,
) -> anyhow::Result<()> {
    let calls = first_turn();
    let mut left = UnresetCore.reset();
    let mut right = UnresetCore.reset();
    show::show_withheld(rt, "left", left_board)?;
    show::show_withheld(rt, "right", right_board)?;
    let (left_answers, right_answers) = lockstep(
        rt.alloc(),
        &mut left,
        left_board,
        &mut right,
        right_board,
        &calls,
    )?;
    show::show_first_turn(rt, &calls, &left_answers, &right_answers)?;
    println!(rt; "answers equal: {}", left_answers == right_answers)?;
    println!(rt; "cores equal: {}", left == right)?;
    show::show_withheld(rt, "left", left_board)?;
    show::show_withheld(rt, "right", right_board)?;
    second_turn(rt, "left", &mut left, left_board)?;
    second_turn(rt, "right", &mut right, right_board)
}

fn second_turn<B: Bus>(
    rt: &HostRuntime,
    side: &str,
    core: &mut RunningCore,
    board: &mut B,
) -> anyhow::Result<()> {
    let answers = drive(rt.alloc(), core, board, &SECOND_TURN)?;
    println!(rt; "{side}, the second maker's turn")?;
    for (call, answer) in SECOND_TURN.iter().zip(answers.iter()) {
        show::show_call(rt, call)?;
        print!(rt; "    ")?;
        show::show_answer(rt, answer)?;
        println!(rt; "")?;
    }
    Ok(())
}
