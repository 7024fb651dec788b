// What is printed: calls and answers, withheld words, orders.
use crate::calls::STEP_CALLS;
use crate::images::{FIRST_TRY, PROGRAM, TRIES};
use crate::places::{BOOK, VALVES};
use bus::{Access, Bus, PhysAddr};
use driver::{Answer, Call};
use machine::{CallRefusal, Event, RunReport, StepRefusal};
use pages::{Half, VirtAddr};
use std::io;
use tlb::Entry;
use valves::Pour;

// The tries of the first maker's program and the calls of the driver, each with both answers. Other steps are left out.
pub(crate) fn show_first_turn(
    rt: &HostRuntime,
    calls: &[Call],
    left: &[Answer],
    right: &[Answer],
) -> io::Result<()> {
    let mut is_shown = false;
    for (number, (call, (one, other))) in calls
        .iter()
        .zip(left.iter().zip(right.iter()))
        .enumerate()
    {
        if number >= STEP_CALLS {
            show_call(rt, call)?;
            show_both(rt, one, other)?;
        } else if let Answer::Pc(at) = one {
            let subject = subject_of(*at);
            is_shown = subject.is_some();
            if let Some(subject) = subject {
                println!(rt; "{:08X}: {subject}", at.0)?;
            }
        } else if is_shown {
            show_both(rt, one, other)?;
        }
    }
    Ok(())
}

// What a step is for, if it is a try or a fetch below the programs, where a try has jumped to.
fn subject_of(at: VirtAddr) -> Option<&'static str> {
    if at.0 < PROGRAM {
        return Some("the fetch at that address");
    }
    let number = at.0.wrapping_sub(FIRST_TRY) / 4;
    TRIES.get(number as usize).map(|tried| tried.what)
}

fn show_both(rt: &HostRuntime, one: &Answer, other: &Answer) -> io::Result<()> {
    print!(rt; "    ")?;
    show_answer(rt, one)?;
    print!(rt; " | ")?;
    show_answer(rt, other)?;
    println!(rt; "")
}

pub(crate) fn show_call(rt: &HostRuntime, call: &Call) -> io::Result<()> {
    match *call {
        Call::Reset => println!(rt; "reset"),
        Call::Step { levels } => println!(rt; "step, levels {levels:02X}"),
        Call::Run { count, levels } => println!(rt; "run of {count} steps, levels {levels:02X}"),
        Call::Pc => println!(rt; "PC"),
        Call::Register(number) => println!(rt; "register {number}"),
        Call::ControlRegister(number) => println!(rt; "control register {number:X}"),
        Call::TlbEntry(number) => println!(rt; "TLB entry {number}"),
    }
}

pub(crate) fn show_answer(rt: &HostRuntime, answer: &Answer) -> io::Result<()> {
    match answer {
        Answer::Reset => print!(rt; "done"),
        Answer::Step(Ok(event)) => show_event(rt, event),
        Answer::Step(Err(refusal)) => show_step_refusal(rt, refusal),
        Answer::Run(Ok(report)) => show_run_report(rt, report),
        Answer::Pc(at) => print!(rt; "{:08X}", at.0),
        Answer::Register(Ok(value)) => print!(rt; "{value:08X}"),
        Answer::ControlRegister(Ok(value)) => print!(rt; "{value:08X}"),
        Answer::TlbEntry(Ok(entry)) => show_tlb_entry(rt, entry),
        Answer::Run(Err(refusal))
        | Answer::Register(Err(refusal))
        | Answer::ControlRegister(Err(refusal))
        | Answer::TlbEntry(Err(refusal)) => show_call_refusal(rt, refusal),
    }
}

fn show_event(rt: &HostRuntime, event: &Event) -> io::Result<()> {
    match event.codes() {
        Some((ecode, esubcode)) => print!(rt; "exception, Ecode {ecode:X}, EsubCode {esubcode:X}"),
        None if *event == Event::Waiting => print!(rt; "waiting"),
        None => print!(rt; "done"),
    }
}

fn show_step_refusal(rt: &HostRuntime, refusal: &StepRefusal) -> io::Result<()> {
    let by_bus = refusal.by_bus;
    let kind = refusal.kind.number();
    print!(rt; "{by_bus}, kind {kind}, PC {:08X}", refusal.pc.0)
}

fn show_run_report(rt: &HostRuntime, report: &RunReport) -> io::Result<()> {
    print!(rt; "{} steps", report.steps)?;
    match report.refusal {
        Some(refusal) => {
            print!(rt; ", then ")?;
            show_step_refusal(rt, &refusal)
        }
        None => Ok(()),
    }
}

fn show_call_refusal(rt: &HostRuntime, refusal: &CallRefusal) -> io::Result<()> {
    print!(rt; "refused {}", refusal.number())
}

fn show_tlb_entry(rt: &HostRuntime, entry: &Entry) -> io::Result<()> {
    let vppn = entry.vppn.value();
    let size = entry.page_size.number();
    print!(rt;
        "VPPN {vppn:05X}, PS {size}, E {}, G {}",
        entry.exists, entry.global
    )?;
    show_half(rt, &entry.even)?;
    show_half(rt, &entry.odd)
}

fn show_half(rt: &HostRuntime, half: &Half) -> io::Result<()> {
    let frame = half.frame.0.value();
    let plv = half.plv.value();
    print!(rt;
        "; PPN {frame:05X}, V {}, D {}, PLV {plv}",
        half.valid, half.dirty
    )
}

// The first words of the book and the four of the valves.
pub(crate) fn show_withheld<B: Bus>(rt: &HostRuntime, side: &str, board: &mut B) -> io::Result<()> {
    print!(rt; "{side} book")?;
    show_words(rt, board, BOOK)?;
    print!(rt; ", valves")?;
    show_words(rt, board, VALVES)?;
    println!(rt; "")
}

// Four words from `at` on.
fn show_words<B: Bus>(rt: &HostRuntime, board: &mut B, at: PhysAddr) -> io::Result<()> {
    for i in 0..4u32 {
        let word = Access::new(PhysAddr(at.0.wrapping_add(4 * i)), 4);
        match board.read(word) {
            Ok(value) => print!(rt; " {value:08X}")?,
            Err(refusal) => print!(rt; " {refusal}")?,
        }
    }
    Ok(())
}

// What the dispenser is to pour.
pub(crate) fn show_order(rt: &HostRuntime, side: &str, order: Option<Pour>) -> io::Result<()> {
    match order {
        Some(Pour { channel, shots }) => {
            println!(rt; "{side}: the valve of channel {channel} pours {shots} shots")
        }
        None => println!(rt; "{side}: no valve pours"),
    }
}
