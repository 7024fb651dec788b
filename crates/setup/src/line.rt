// A set-up's line by its form, with its fields.
ghost use Rattle.std.specs.Prelude.{◌≡◌};
ghost use Rattle.setup.specs.Lines.{form_of, form_in, as_write, as_run, as_register, Exact};

use numerals::{DecimalField, HexField};

// Each field is a part of the text itself, not a copy.
#[derive(Clone, Copy, PartialEq, Eq, Debug)]
pub enum SetupLine<'a> {
    Write {
        address: HexField<'a>,
        word: HexField<'a>,
    },
    Run {
        count: DecimalField<'a>,
    },
    Register {
        number: DecimalField<'a>,
    },
}

// An address, a comma and a word.
fn read_write(fields: &[u8]) -> Option<SetupLine<'_>>
    ensures { form_in result ≡ as_write fields.now }
{
    if fields.len() != 17 || fields[8] != b',' {
        return None;
    }
    Some(SetupLine::Write {
        address: HexField::new(&fields[..8])?,
        word: HexField::new(&fields[9..])?,
    })
}

fn read_run(count: &[u8]) -> Option<SetupLine<'_>>
    ensures { form_in result ≡ as_run count.now }
{
    let count = DecimalField::new(count)?;
    Some(SetupLine::Run { count })
}

fn read_register(number: &[u8]) -> Option<SetupLine<'_>>
    ensures { form_in result ≡ as_register number.now }
{
    let number = DecimalField::new(number)?;
    Some(SetupLine::Register { number })
}

fn read_form(line: &[u8]) -> Option<SetupLine<'_>>
    ensures { form_in result ≡ form_of line.now }
{
    match line {
        [b'w', b',', fields @ .., b'\n'] => read_write(fields),
        [b'g', b',', count @ .., b'\n'] => read_run(count),
        [b'r', b',', number @ .., b'\n'] => read_register(number),
        _ => None,
    }
}

impl<'a> SetupLine<'a> {
    // The line has to end in its LF.
    pub fn read(line: &'a [u8]) -> Option<SetupLine<'a>>
        ensures value { form_in result ≡ form_of line.now }
        ensures exact { Exact line.now (form_in result) }
    {
        read_form(line)
    }
}
