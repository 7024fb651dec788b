// What is written in a listing.
ghost use Rattle.std.specs.Prelude.{◌≡◌, ◌≤◌, ◌+◌, length, decimal, false};
ghost use Rattle.session.specs.Listings.{contents, with_text, is_full, comma_line, run_line, register_line, refusal_line, report_lines, told};

use crate::answer::{LineAnswer, LineRefusal};
use crate::listing::Listing;
use machine::RunReport;
use numerals::{Buffer, decimal_digits, hex_digits};
use pages::VirtAddr;

// No line writes more: a run 24 bytes, and the refusal that cuts it short 16. A line is read only if as many are free.
pub(crate) const ROOM: usize = 40;

impl Listing<'_> {
    // What is written.
    pub fn text(&self) -> &[u8]
        ensures { result.now ≡ (contents self.now).written }
    {
        &self.memory[..self.used]
    }

    // Whether there is no room for what a line may write.
    pub fn is_full(&self) -> bool
        ensures { result ≡ is_full (contents self.now) }
    {
        self.memory.len() - self.used < ROOM
    }

    fn push(&mut self, bytes: &[u8])
        requires { length bytes.now ≤ length (contents self.old).free }
        ensures contents { contents self.new ≡ with_text (contents self.old) bytes.now }
        ensures lender { self.new.memory.ghost_name ≡ self.old.memory.ghost_name }
    {
        let end = self.used + bytes.len();
        self.memory[self.used..end].copy_from_slice(bytes);
        self.used = end;
    }

    // A name and two fields, parted by commas.
    fn push_line(&mut self, name: &[u8], first: &[u8], second: &[u8])
        requires { length (comma_line name.now first.now second.now) ≤ length (contents self.old).free }
        ensures contents { contents self.new ≡ with_text (contents self.old) (comma_line name.now first.now second.now) }
        ensures lender { self.new.memory.ghost_name ≡ self.old.memory.ghost_name }
    {
        self.push(name);
        self.push(b",");
        self.push(first);
        self.push(b",");
        self.push(second);
        self.push(b"\n");
    }

    fn push_run(&mut self, steps: u32, pc: u32)
        requires { 24 ≤ length (contents self.old).free }
        ensures contents { contents self.new ≡ with_text (contents self.old) (run_line steps pc) }
        ensures size { length (run_line steps pc) ≤ 24 }
        ensures lender { self.new.memory.ghost_name ≡ self.old.memory.ghost_name }
    {
        let mut buffer = Buffer::new();
        self.push_line(b"run", decimal_digits(steps, &mut buffer), &hex_digits(pc));
    }

    fn push_register(&mut self, number: u32, value: u32)
        requires { 24 ≤ length (contents self.old).free }
        ensures contents { contents self.new ≡ with_text (contents self.old) (register_line number value) }
        ensures lender { self.new.memory.ghost_name ≡ self.old.memory.ghost_name }
    {
        let mut buffer = Buffer::new();
        self.push_line(
            b"reg",
            decimal_digits(number, &mut buffer),
            &hex_digits(value),
        );
    }

    fn push_refusal(&mut self, line: u32, number: u32)
        requires { 15 + length (decimal number) ≤ length (contents self.old).free }
        ensures contents { contents self.new ≡ with_text (contents self.old) (refusal_line line number) }
        ensures lender { self.new.memory.ghost_name ≡ self.old.memory.ghost_name }
    {
        let mut buffer = Buffer::new();
        let mut other_buffer = Buffer::new();
        self.push_line(
            b"no",
            decimal_digits(line, &mut buffer),
            decimal_digits(number, &mut other_buffer),
        );
    }

    // At most 24 bytes for the run and 16 for its refusal.
    fn push_report(&mut self, line: u32, report: RunReport, pc: VirtAddr)
        requires { 40 ≤ length (contents self.old).free }
        ensures contents { contents self.new ≡ with_text (contents self.old) (report_lines line report pc) }
        ensures lender { self.new.memory.ghost_name ≡ self.old.memory.ghost_name }
    {
        self.push_run(report.steps, pc.0);
        if let Some(refusal) = report.refusal {
            self.push_refusal(line, refusal.number());
        }
    }

    // Tells of a line of the set-up what it answered.
    pub(crate) fn tell(&mut self, line: u32, answer: Result<LineAnswer, LineRefusal>)
        requires { is_full (contents self.old) ≡ false }
        ensures contents { contents self.new ≡ with_text (contents self.old) (told line answer) }
        ensures lender { self.new.memory.ghost_name ≡ self.old.memory.ghost_name }
    {
        match answer {
            Ok(LineAnswer::Written) | Err(LineRefusal::ListingFull) => {}
            Ok(LineAnswer::Ran { report, pc }) => self.push_report(line, report, pc),
            Ok(LineAnswer::Register { number, value }) => self.push_register(number, value),
            Err(refusal) => self.push_refusal(line, refusal.number()),
        }
    }
}
