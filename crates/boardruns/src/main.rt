//! Answers the board texts in the files that are named: runs on a board of every part and layer, with levels of the hardware lines.
#![tactic(auto)]

mod line;
mod plan;
mod run;
mod show;

use std::env;
use std::fs::File;

fn main(rt: HostRuntime) -> anyhow::Result<()> {
    for name in env::args(&rt)?.skip(1) {
        println!(rt; "== {name}")?;
        let text = session::read_text(rt.alloc(), File::open(&rt, name.as_str())?)?;
        run::answer_text(&rt, text.as_slice())?;
    }
    Ok(())
}
