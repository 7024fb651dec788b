//! Makes each run of the set-up on standard input many times, and prints the steps of all. A word is written wherever its line stands;
//! one that the bus refuses ends the program. Lines that read a register or have no form are passed over. For the benchmark.
#![tactic(auto)]

use bus::{Access, Bus, PhysAddr};
use machine::{RunningCore, UnresetCore};
use parts::Bank;
use session::{BANK_BASE, BANK_BYTES, read_text};
use setup::{SetupLine, split_line};

// How often each run is made. tools/bench.py has the same number.
const TIMES: u32 = 100;

// Makes a run so many times, and gives the steps of all. A refused run makes none.
fn run_many_times<B: Bus>(core: &mut RunningCore, bus: &mut B, count: u32) -> u64 {
    let mut steps = 0u64;
    for _ in 0..TIMES {
        if let Ok(report) = core.run(bus, count, 0) {
            steps = steps.wrapping_add(u64::from(report.steps));
        }
    }
    steps
}

fn main(rt: HostRuntime) -> anyhow::Result<()> {
    let text = read_text(rt.alloc(), rt.reader())?;
    let mut memory = [0u8; BANK_BYTES];
    let mut bank = Bank::new(BANK_BASE, &mut memory);
    let mut core = UnresetCore.reset();
    let mut steps = 0u64;
    let mut rest = text.as_slice();
    while let Some((line, behind)) = split_line(rest) {
        match SetupLine::read(line) {
            Some(SetupLine::Write { address, word }) => {
                bank.write(Access::new(PhysAddr(address.value()), 4), word.value())?;
            }
            Some(SetupLine::Run { count }) => {
                steps = steps.wrapping_add(run_many_times(&mut core, &mut bank, count.value()));
            }
            Some(SetupLine::Register { .. }) | None => {}
        }
        rest = behind;
    }
    println!(rt; "{steps}")?;
    Ok(())
}
