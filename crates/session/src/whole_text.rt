// A whole set-up: its lines one after the other, the listing printed and emptied behind each.
ghost use Rattle.std.specs.Prelude.{◌≡◌, OnOk, OnErr, IfOk, IfSome};
ghost use Rattle.std.specs.Io.KnownBytes.{Appends};
ghost use Rattle.setup.specs.Text.{lines_of};
ghost use Rattle.session.specs.Sessions.{progress, lines_told, after_lines, LeftAt};
ghost use Rattle.session.specs.WholeText.{set_up_listing, text_read};
ghost use Rattle.session.specs.Worked.{WorkedSetUp};

use crate::listing::Listing;
use crate::listing_text::ROOM;
use crate::session::Session;
use bus::{Bus, PhysAddr};
use parts::Bank;
use setup::split_line;
use std::alloc::Global;
use std::io;
use std::io::{Read, Write};

// The most that is read of a text.
pub const MOST_TEXT_BYTES: usize = 65_536;

// Where the bank of a set-up's board begins: at the core's first address after reset.
pub const BANK_BASE: PhysAddr = PhysAddr(0x1c00_0000);

// How long it is.
pub const BANK_BYTES: usize = 32_768;

impl<B: Bus> Session<B> {
    // Handles the lines of a text and prints what each writes into the listing.
    pub fn print<W: Write>(&mut self, text: &[u8], out: &mut W) -> io::Result<()>
        ensures printed { OnOk result (Appends (W.contents out.old) (W.contents out.new) (lines_told (progress B.byte self.old) (lines_of text.now))) }
        ensures after { OnOk result (progress B.byte self.new ≡ after_lines (progress B.byte self.old) (lines_of text.now)) }

        // Printing may fail behind any line.
        ensures stopped { OnErr result (LeftAt (progress B.byte self.old) (lines_of text.now) (progress B.byte self.new)) }
        ensures kept { B.layout self.new.board ≡ B.layout self.old.board }
    {
        let mut rest = text;
        while let Some((line, behind)) = split_line(rest) {
            let mut memory = [0u8; ROOM];
            let mut listing = Listing::new(&mut memory, 0);
            // Why a line was refused is in the listing.
            let _ = self.handle(line, &mut listing);
            out.write_all(listing.text())?;
            rest = behind;
        }
        Ok(())
    }
}

// Prints the listing of a text, on a board of one bank.
pub fn print_listing<W: Write>(text: &[u8], out: &mut W) -> io::Result<()>
    ensures printed { OnOk result (Appends (W.contents out.old) (W.contents out.new) (set_up_listing text.now)) }

    // A theorem over definitions is checked only where a contract cites it, so this call's contract cites this one.
    ensures worked { WorkedSetUp }
{
    let mut memory = [0u8; BANK_BYTES];
    let mut session = Session::new(Bank::new(BANK_BASE, &mut memory));
    session.print(text, out)
}

// Reads a text, no more of it than MOST_TEXT_BYTES.
pub fn read_text<R: Read + Drop>(alloc: Global, input: R) -> io::Result<Vec<u8>>
    ensures { IfOk result (λ text. IfSome (R.remaining input) (λ bytes. text.items ≡ text_read bytes)) }
{
    let mut text = Vec::new(alloc);
    input.take(MOST_TEXT_BYTES as u64).read_to_end(&mut text)?;
    Ok(text)
}
