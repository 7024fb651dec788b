// Calls and their answers, as lines of text.
use bus::{BoardRefusal, Bus, PhysAddr, Span, check_border};
use calls::{Call, perform_all};
use std::io;

// Whether the numbers are accepted, as the end of a line.
fn print_check(rt: &HostRuntime, checked: Result<(), BoardRefusal>) -> io::Result<()> {
    match checked {
        Ok(()) => println!(rt; "accepted"),
        Err(refusal) => println!(rt; "{refusal}"),
    }
}

pub(crate) fn range(rt: &HostRuntime, span: Span) -> io::Result<()> {
    print!(rt; "range {span}: ")?;
    print_check(rt, span.check())
}

pub(crate) fn border(rt: &HostRuntime, border: PhysAddr) -> io::Result<()> {
    print!(rt; "border {border}: ")?;
    print_check(rt, check_border(border))
}

// Makes the calls on the bus, and prints each with its answer.
pub(crate) fn calls<B: Bus>(rt: &HostRuntime, bus: &mut B, list: &[Call]) -> anyhow::Result<()> {
    let answers = perform_all(rt.alloc(), bus, list)?;
    for (call, answer) in list.iter().zip(answers.iter()) {
        println!(rt; "{call}: {answer}")?;
    }
    Ok(())
}
