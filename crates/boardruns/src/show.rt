// Answers, and what a core is, as text.
use bus::Refusal;
use driver::Answer;
use machine::{CallRefusal, Event, RunReport, RunningCore, StepRefusal};
use pages::Half;
use std::io;
use tlb::{ENTRIES, Entry};

const GENERAL_REGISTERS: u32 = 32;

// Control registers have numbers of 14 bits.
const CONTROL_NUMBERS: u32 = 0x4000;

pub(crate) fn write(rt: &HostRuntime, answer: Result<(), Refusal>) -> io::Result<()> {
    match answer {
        Ok(()) => println!(rt; "write done"),
        Err(refusal) => println!(rt; "write {refusal}"),
    }
}

pub(crate) fn read(rt: &HostRuntime, answer: Result<u32, Refusal>) -> io::Result<()> {
    match answer {
        Ok(value) => println!(rt; "read {value:08X}"),
        Err(refusal) => println!(rt; "read {refusal}"),
    }
}

// The answer to a reset, a step or a run, which are the calls that a line may be.
pub(crate) fn answer(rt: &HostRuntime, answer: &Answer, core: &RunningCore) -> io::Result<()> {
    match answer {
        Answer::Step(Ok(event)) => show_event(rt, event),
        Answer::Step(Err(refusal)) => show_refused_step(rt, refusal),
        Answer::Run(Ok(report)) => show_report(rt, report, core),
        Answer::Run(Err(refusal)) => println!(rt; "run refused {}", refusal.number()),
        Answer::Reset => println!(rt; "reset"),
        Answer::Pc(_) | Answer::Register(_) | Answer::ControlRegister(_) | Answer::TlbEntry(_) =>
            Ok(()),
    }
}

fn show_event(rt: &HostRuntime, event: &Event) -> io::Result<()> {
    match event.codes() {
        Some((ecode, esubcode)) => println!(rt; "step exception {ecode:X} {esubcode:X}"),
        None if *event == Event::Waiting => println!(rt; "step waiting"),
        None => println!(rt; "step done"),
    }
}

fn show_refused_step(rt: &HostRuntime, refusal: &StepRefusal) -> io::Result<()> {
    let by_bus = refusal.by_bus;
    let kind = refusal.kind.number();
    println!(rt; "step {by_bus} kind {kind} pc {:08X}", refusal.pc.0)
}

fn show_report(rt: &HostRuntime, report: &RunReport, core: &RunningCore) -> io::Result<()> {
    print!(rt; "run {} pc {:08X}", report.steps, core.pc().0)?;
    match report.refusal {
        Some(refusal) => {
            print!(rt; " ")?;
            show_refused_step(rt, &refusal)
        }
        None => println!(rt; ""),
    }
}

// The PC, and what differs from 0 or from what reset leaves.
pub(crate) fn core(rt: &HostRuntime, core: &RunningCore) -> io::Result<()> {
    println!(rt; "pc {:08X}", core.pc().0)?;
    show_registers(rt, core)?;
    show_control_registers(rt, core)?;
    show_tlb(rt, core)
}

fn show_registers(rt: &HostRuntime, core: &RunningCore) -> io::Result<()> {
    for number in 0..GENERAL_REGISTERS {
        show_register(rt, core.register(number), number)?;
    }
    Ok(())
}

fn show_register(rt: &HostRuntime, value: Result<u32, CallRefusal>, number: u32) -> io::Result<()> {
    match value {
        Ok(value) if value != 0 => println!(rt; "gr {number} {value:08X}"),
        _ => Ok(()),
    }
}

fn show_control_registers(rt: &HostRuntime, core: &RunningCore) -> io::Result<()> {
    for number in 0..CONTROL_NUMBERS {
        show_control_register(rt, core.control_register(number), number)?;
    }
    Ok(())
}

fn show_control_register(
    rt: &HostRuntime,
    value: Result<u32, CallRefusal>,
    number: u32,
) -> io::Result<()> {
    match value {
        Ok(value) if value != 0 => println!(rt; "csr {number:03X} {value:08X}"),
        _ => Ok(()),
    }
}

fn show_tlb(rt: &HostRuntime, core: &RunningCore) -> io::Result<()> {
    for number in 0..ENTRIES as u32 {
        show_entry(rt, core.tlb_entry(number), number)?;
    }
    Ok(())
}

fn show_entry(rt: &HostRuntime, entry: Result<Entry, CallRefusal>, number: u32) -> io::Result<()> {
    match entry {
        Ok(entry) if entry != Entry::empty() => {
            let asid = entry.asid.value();
            let vppn = entry.vppn.value();
            let size = entry.page_size.number();
            let (exists, global) = (u32::from(entry.exists), u32::from(entry.global));
            print!(rt; "tlb {number} {exists} {global} {asid:X} {size} {vppn:X}")?;
            show_half(rt, &entry.even)?;
            show_half(rt, &entry.odd)?;
            println!(rt; "")
        }
        _ => Ok(()),
    }
}

fn show_half(rt: &HostRuntime, half: &Half) -> io::Result<()> {
    let frame = half.frame.0.value();
    let (valid, dirty) = (u32::from(half.valid), u32::from(half.dirty));
    let plv = half.plv.value();
    let mat = half.mat.value();
    print!(rt; " {frame:X} {valid} {dirty} {plv:X} {mat:X}")
}
