// A set-up's session: the board, and the core from the first run on.
ghost use Rattle.std.specs.Prelude.{◌≡◌, true, IfErr};
ghost use Rattle.session.specs.Listings.{contents, with_text, told};
ghost use Rattle.session.specs.Sessions.{handled, progress, fresh, handle, perform, write_word, run_core, read_register};
ghost use Rattle.session.specs.Refused.{Refused, asks_no_bus};

use crate::answer::{LineAnswer, LineRefusal};
use crate::listing::Listing;
use bus::{Access, Bus, PhysAddr};
use machine::{RunningCore, UnresetCore};
use setup::SetupLine;

#[derive(Drop)]
enum Stage {
    Unreset(UnresetCore),
    Running(RunningCore),
}

#[derive(Drop)]
pub struct Session<B> {
    board: B,
    stage: Stage,
    // Stays at the greatest number.
    lines_read: u32,
}

impl<B: Bus> Session<B> {
    pub fn new(board: B) -> Session<B>
        ensures progress { progress B.byte result ≡ fresh (B.byte board) }
        ensures board { result.board ≡ board }
    {
        Session {
            board,
            stage: Stage::Unreset(UnresetCore),
            lines_read: 0,
        }
    }

    pub fn into_board(self) -> B
        ensures { result ≡ self.board }
    {
        let Session { board, .. } = self;
        board
    }

    // Handles a line and writes what it brings about behind what the listing holds. A line that finds the listing full is not read.
    pub fn handle(
        &mut self,
        line: &[u8],
        listing: &mut Listing<'_>,
    ) -> Result<LineAnswer, LineRefusal>
        ensures value { handled result (progress B.byte self.new) ≡ handle (progress B.byte self.old) (contents listing.old) line.now }

        // Why a line is refused, and that it leaves core and memory, but for the reset before a first run that is too long.
        ensures refused { IfErr result (λ e. Refused e (progress B.byte self.old) (contents listing.old) line.now (progress B.byte self.new)) }
        ensures untouched { asks_no_bus result ≡ true → self.new.board ≡ self.old.board }

        // What the line brings about stands behind what the listing held, and the bytes behind that are as they were.
        ensures listing { contents listing.new ≡ with_text (contents listing.old) (told self.new.lines_read result) }
        ensures lender { listing.new.memory.ghost_name ≡ listing.old.memory.ghost_name }
        ensures kept { B.layout self.new.board ≡ B.layout self.old.board }
    {
        if listing.is_full() {
            return Err(LineRefusal::ListingFull);
        }
        self.lines_read = self.lines_read.saturating_add(1);
        let answer = self.perform(line);
        listing.tell(self.lines_read, answer);
        answer
    }

    fn perform(&mut self, line: &[u8]) -> Result<LineAnswer, LineRefusal>
        ensures value { handled result (progress B.byte self.new) ≡ perform (progress B.byte self.old) line.now }
        ensures untouched { asks_no_bus result ≡ true → self.new.board ≡ self.old.board }
        ensures kept { B.layout self.new.board ≡ B.layout self.old.board }
    {
        match SetupLine::read(line) {
            None => Err(LineRefusal::NoForm),
            Some(SetupLine::Write { address, word }) => {
                self.write(PhysAddr(address.value()), word.value())
            }
            Some(SetupLine::Run { count }) => self.run(count.value()),
            Some(SetupLine::Register { number }) => self.register(number.value()),
        }
    }

    fn write(&mut self, at: PhysAddr, word: u32) -> Result<LineAnswer, LineRefusal>
        ensures value { handled result (progress B.byte self.new) ≡ write_word (progress B.byte self.old) at.0 word }
        ensures untouched { asks_no_bus result ≡ true → self.new.board ≡ self.old.board }
        ensures kept { B.layout self.new.board ≡ B.layout self.old.board }
    {
        match &self.stage {
            Stage::Running(_) => Err(LineRefusal::OutOfPlace),
            Stage::Unreset(_) => match self.board.write(Access::new(at, 4), word) {
                Ok(()) => Ok(LineAnswer::Written),
                Err(refusal) => Err(LineRefusal::Bus(refusal)),
            },
        }
    }

    // The first run resets the core, also if it is refused then.
    fn run(&mut self, count: u32) -> Result<LineAnswer, LineRefusal>
        ensures value { handled result (progress B.byte self.new) ≡ run_core (progress B.byte self.old) count }
        ensures untouched { asks_no_bus result ≡ true → self.new.board ≡ self.old.board }
        ensures kept { B.layout self.new.board ≡ B.layout self.old.board }
    {
        let mut core = match std::mem::replace(&mut self.stage, Stage::Unreset(UnresetCore)) {
            Stage::Unreset(core) => core.reset(),
            Stage::Running(core) => core,
        };
        let report = core.run(&mut self.board, count, 0);
        let pc = core.pc();
        self.stage = Stage::Running(core);
        match report {
            Ok(report) => Ok(LineAnswer::Ran { report, pc }),
            Err(refusal) => Err(LineRefusal::Call(refusal)),
        }
    }

    fn register(&mut self, number: u32) -> Result<LineAnswer, LineRefusal>
        ensures value { handled result (progress B.byte self.new) ≡ read_register (progress B.byte self.old) number }
        ensures untouched { asks_no_bus result ≡ true → self.new.board ≡ self.old.board }
        ensures kept { B.layout self.new.board ≡ B.layout self.old.board }
    {
        match &self.stage {
            Stage::Unreset(_) => Err(LineRefusal::OutOfPlace),
            Stage::Running(core) => match core.register(number) {
                Ok(value) => Ok(LineAnswer::Register { number, value }),
                Err(refusal) => Err(LineRefusal::Call(refusal)),
            },
        }
    }
}
