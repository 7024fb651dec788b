//! Prints the listing of each set-up in the files that are named.
#![tactic(auto)]

use session::{print_listing, read_text};
use std::fs::File;
use std::{env, io};

fn main(rt: HostRuntime) -> anyhow::Result<()> {
    for name in env::args(&rt)?.skip(1) {
        println!(rt; "== {name}")?;
        let text = read_text(rt.alloc(), File::open(&rt, name.as_str())?)?;
        print_listing(text.as_slice(), &mut io::writer(&rt))?;
    }
    Ok(())
}
