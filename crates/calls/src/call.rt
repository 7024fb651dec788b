// Bus calls and their answers, as values.
ghost use Rattle.std.specs.Prelude.{Some};
ghost use Rattle.calls.specs.Text.{call_text, answer_text};

use bus::{Access, Refusal};
use std::fmt;

#[derive(Clone, Copy, PartialEq, Eq, Debug)]
pub enum Call {
    Read(Access),
    Write { access: Access, value: u32 },
}

// What the bus answered, by the kind of call.
#[derive(Clone, Copy, PartialEq, Eq, Debug)]
pub enum Answer {
    Read(Result<u32, Refusal>),
    Write(Result<(), Refusal>),
}

impl fmt::Display for Call {
    ghost output = { λ call. Some (call_text call) };

    fn fmt<W: fmt::Write>(&self, f: &mut fmt::Formatter<W>) -> fmt::Result {
        match *self {
            Call::Read(access) => write!(f, "read {access}"),
            Call::Write { access, value } => write!(f, "write {access} 0x{value:X}"),
        }
    }
}

impl fmt::Display for Answer {
    ghost output = { λ answer. Some (answer_text answer) };

    fn fmt<W: fmt::Write>(&self, f: &mut fmt::Formatter<W>) -> fmt::Result {
        match *self {
            Answer::Read(Ok(value)) => write!(f, "0x{value:X}"),
            Answer::Write(Ok(())) => write!(f, "done"),
            Answer::Read(Err(refusal)) | Answer::Write(Err(refusal)) => write!(f, "{refusal}"),
        }
    }
}
