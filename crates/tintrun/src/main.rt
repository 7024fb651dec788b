//! Runs the set-up on standard input and prints its listing.
#![tactic(auto)]

use anyhow::Context;
use session::{MOST_TEXT_BYTES, print_listing, read_text};
use std::io;

fn main(rt: HostRuntime) -> anyhow::Result<()> {
    let text = read_text(rt.alloc(), rt.reader()).context("reading the set-up")?;
    print_listing(text.as_slice(), &mut io::writer(&rt)).context("printing the listing")?;
    if text.len() == MOST_TEXT_BYTES {
        eprintln!(rt; "tintrun: no more than {MOST_TEXT_BYTES} bytes are read")?;
    }
    Ok(())
}
