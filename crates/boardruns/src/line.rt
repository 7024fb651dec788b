// A line of a board text, read.
use bus::{Access, PhysAddr, Span};
use driver::Call;
use numerals::HexField;

// What the board is made of.
#[derive(Clone, Copy)]
pub(crate) enum PlanLine {
    Borders { lower: PhysAddr, upper: PhysAddr },
    Lock(Span),
    BankShift(Span),
    Bank(PhysAddr),
    Image(PhysAddr),
    PortShift(Span),
    Ports(PhysAddr),
    ImageWord { at: PhysAddr, word: u32 },
}

#[derive(Clone, Copy)]
pub(crate) enum TextLine {
    Plan(PlanLine),
    Write { at: PhysAddr, word: u32 },
    Read(Access),
    Call(Call),
    Show,
}

fn number(field: &[u8]) -> Option<u32> {
    Some(HexField::new(field)?.value())
}

fn two_numbers(fields: &[u8]) -> Option<(u32, u32)> {
    if fields.len() != 17 || fields[8] != b',' {
        return None;
    }
    Some((number(&fields[..8])?, number(&fields[9..])?))
}

fn address(field: &[u8]) -> Option<PhysAddr> {
    Some(PhysAddr(number(field)?))
}

fn addresses(fields: &[u8]) -> Option<(PhysAddr, PhysAddr)> {
    let (first, second) = two_numbers(fields)?;
    Some((PhysAddr(first), PhysAddr(second)))
}

fn address_and_word(fields: &[u8]) -> Option<(PhysAddr, u32)> {
    let (at, word) = two_numbers(fields)?;
    Some((PhysAddr(at), word))
}

fn span(fields: &[u8]) -> Option<Span> {
    let (base, length) = address_and_word(fields)?;
    Some(Span::new(base, u64::from(length)))
}

impl PlanLine {
    fn read(line: &[u8]) -> Option<PlanLine> {
        match line {
            [b's', b',', fields @ .., b'\n'] => {
                let (lower, upper) = addresses(fields)?;
                Some(PlanLine::Borders { lower, upper })
            }
            [b'l', b',', fields @ .., b'\n'] => Some(PlanLine::Lock(span(fields)?)),
            [b'h', b',', fields @ .., b'\n'] => Some(PlanLine::BankShift(span(fields)?)),
            [b'b', b',', fields @ .., b'\n'] => Some(PlanLine::Bank(address(fields)?)),
            [b'f', b',', fields @ .., b'\n'] => Some(PlanLine::Image(address(fields)?)),
            [b'v', b',', fields @ .., b'\n'] => Some(PlanLine::PortShift(span(fields)?)),
            [b'p', b',', fields @ .., b'\n'] => Some(PlanLine::Ports(address(fields)?)),
            [b'i', b',', fields @ .., b'\n'] => {
                let (at, word) = address_and_word(fields)?;
                Some(PlanLine::ImageWord { at, word })
            }
            _ => None,
        }
    }
}

// The levels of the hardware lines are the lowest eight bits of a word.
fn levels_of(word: u32) -> u8 {
    (word % 256) as u8
}

fn run_call(fields: &[u8]) -> Option<Call> {
    let (count, word) = two_numbers(fields)?;
    let levels = levels_of(word);
    Some(Call::Run { count, levels })
}

fn step_call(field: &[u8]) -> Option<Call> {
    let levels = levels_of(number(field)?);
    Some(Call::Step { levels })
}

impl TextLine {
    // The line has to end in its LF.
    pub(crate) fn read(line: &[u8]) -> Option<TextLine> {
        match line {
            [b'w', b',', fields @ .., b'\n'] => {
                let (at, word) = address_and_word(fields)?;
                Some(TextLine::Write { at, word })
            }
            [b'm', b',', fields @ .., b'\n'] => {
                let (at, width) = address_and_word(fields)?;
                Some(TextLine::Read(Access::new(at, width)))
            }
            [b'g', b',', fields @ .., b'\n'] => Some(TextLine::Call(run_call(fields)?)),
            [b't', b',', field @ .., b'\n'] => Some(TextLine::Call(step_call(field)?)),
            [b'z', b'\n'] => Some(TextLine::Call(Call::Reset)),
            [b'd', b'\n'] => Some(TextLine::Show),
            _ => Some(TextLine::Plan(PlanLine::read(line)?)),
        }
    }
}
