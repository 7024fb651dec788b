//! Reads lines of eight hexadecimal digits and prints each word as an instruction.
#![tactic(auto)]

mod digits;

use assembly::disassemble;
use std::io;
use std::io::{BufRead, BufReader};

fn main(rt: HostRuntime) -> anyhow::Result<()> {
    run(&rt)
}

fn run(rt: &HostRuntime) -> anyhow::Result<()> {
    let lines = BufReader::new(rt.alloc(), rt.stdin())?.split(rt.alloc(), b'\n');
    // No input has so many lines that the numbers from 1 on run out first.
    for (line, number) in lines.zip(1u64..) {
        show(rt, number, line?.as_slice())?;
    }
    Ok(())
}

fn show(rt: &HostRuntime, number: u64, line: &[u8]) -> io::Result<()> {
    match digits::word_of(line) {
        Some(word) => {
            let instruction = disassemble(word);
            println!(rt; "{word:08X}  {instruction}")
        }
        None => println!(rt; "line {number}: not eight hexadecimal digits"),
    }
}
