// The numbers and the image that the board of a text is made of.
use crate::line::{PlanLine, TextLine};
use bus::{Access, Bus, PhysAddr, Span};
use parts::Bank;
use setup::split_line;

#[derive(Clone, Copy)]
pub(crate) struct Plan {
    pub(crate) lower_border: PhysAddr,
    pub(crate) upper_border: PhysAddr,
    pub(crate) lock: Span,
    pub(crate) bank_shift: Span,
    pub(crate) bank: PhysAddr,
    pub(crate) image: PhysAddr,
    pub(crate) port_shift: Span,
    pub(crate) ports: PhysAddr,
}

// Writes the word, where the image has its four bytes; else nothing, since such a line does nothing.
fn write_image(image: &mut [u8], at: PhysAddr, word: u32) {
    let _ = Bank::new(PhysAddr(0), image).write(Access::new(at, 4), word);
}

impl Plan {
    fn new() -> Plan {
        let nowhere = Span::new(PhysAddr(0), 0);
        Plan {
            lower_border: PhysAddr(0),
            upper_border: PhysAddr(0),
            lock: nowhere,
            bank_shift: nowhere,
            bank: PhysAddr(0),
            image: PhysAddr(0),
            port_shift: nowhere,
            ports: PhysAddr(0),
        }
    }

    fn take(&mut self, line: PlanLine, image: &mut [u8]) {
        match line {
            PlanLine::Borders { lower, upper } => {
                self.lower_border = lower;
                self.upper_border = upper;
            }
            PlanLine::Lock(span) => self.lock = span,
            PlanLine::BankShift(span) => self.bank_shift = span,
            PlanLine::Bank(base) => self.bank = base,
            PlanLine::Image(base) => self.image = base,
            PlanLine::PortShift(span) => self.port_shift = span,
            PlanLine::Ports(base) => self.ports = base,
            PlanLine::ImageWord { at, word } => write_image(image, at, word),
        }
    }

    // Of all lines that say what the board is made of; the image gets its words. The other lines are read again when they are
    // answered, so that no list of lines is kept.
    pub(crate) fn read(text: &[u8], image: &mut [u8]) -> Plan {
        let mut plan = Plan::new();
        let mut rest = text;
        while let Some((line, behind)) = split_line(rest) {
            if let Some(TextLine::Plan(part)) = TextLine::read(line) {
                plan.take(part, image);
            }
            rest = behind;
        }
        plan
    }
}
