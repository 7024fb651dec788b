// A board text: the board is built, and its lines are answered.
use crate::line::TextLine;
use crate::plan::Plan;
use crate::show;
use bus::{Access, Bus};
use layers::{Lock, Shift, Split};
use machine::{RunningCore, UnresetCore};
use parts::{Bank, Image, Ports};
use session::BANK_BYTES;
use setup::split_line;
use std::io;

const IMAGE_BYTES: usize = 4_096;

pub(crate) fn answer_text(rt: &HostRuntime, text: &[u8]) -> io::Result<()> {
    let mut image = [0u8; IMAGE_BYTES];
    let plan = Plan::read(text, &mut image);
    let mut memory = [0u8; BANK_BYTES];
    let bank = Shift::new(plan.bank_shift, Bank::new(plan.bank, &mut memory));
    let ports = Shift::new(plan.port_shift, Ports::new(plan.ports));
    let upper = Split::new(plan.upper_border, Image::new(plan.image, &image), ports);
    let mut board = Split::new(plan.lower_border, Lock::new(plan.lock, bank), upper);
    answer_lines(rt, text, &mut board)
}

fn answer_lines<B: Bus>(rt: &HostRuntime, text: &[u8], board: &mut B) -> io::Result<()> {
    let mut core = UnresetCore.reset();
    let mut rest = text;
    while let Some((line, behind)) = split_line(rest) {
        match TextLine::read(line) {
            Some(line) => answer_line(rt, line, &mut core, board)?,
            None => println!(rt; "no form")?,
        }
        rest = behind;
    }
    println!(rt; "counter {:016X}", core.close().counter())
}

fn answer_line<B: Bus>(
    rt: &HostRuntime,
    line: TextLine,
    core: &mut RunningCore,
    board: &mut B,
) -> io::Result<()> {
    match line {
        TextLine::Plan(_) => Ok(()),
        TextLine::Write { at, word } => show::write(rt, board.write(Access::new(at, 4), word)),
        TextLine::Read(access) => show::read(rt, board.read(access)),
        TextLine::Call(call) => {
            let answer = driver::perform(core, board, call);
            show::answer(rt, &answer, core)
        }
        TextLine::Show => show::core(rt, core),
    }
}
