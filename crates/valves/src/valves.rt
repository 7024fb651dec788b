// The valve block: a program orders a pour, and the dispenser's own software carries it out between two runs.
ghost use Rattle.std.specs.Prelude.{◌≡◌, [], IfSome};
ghost use Rattle.valves.specs.Valves.{status_number, valve_cells, valves_sound, at_rest, pour_of, after_pour, Ordered};

use crate::bytes::{bytes_named, with_bytes_named};
use bus::{Access, Bus, Refusal};

// How many addresses a valve block has.
pub const BYTES: u64 = 16;

// How many channels there are; each has a valve.
const CHANNELS: u32 = 16;

// What became of the last order that was taken, `Ready` before the first.
#[derive(Clone, Copy, PartialEq, Eq, Debug)]
pub(crate) enum Status {
    Ready,
    Poured,
    NoChannel,
}

impl Status {
    pub(crate) fn number(self) -> u32
        ensures { result ≡ status_number self }
    {
        match self {
            Status::Ready => 0,
            Status::Poured => 1,
            Status::NoChannel => 2,
        }
    }
}

// A channel, and how many shots its valve is to give.
#[derive(Clone, Copy, PartialEq, Eq, Debug)]
pub struct Pour {
    pub channel: u32,
    pub shots: u32,
}

// Four words from address 0 on: a program writes the first two and reads all.
#[derive(Drop)]
pub struct Valves {
    channel: u32,
    shots: u32,
    poured: u32,
    status: Status,
}

impl Valves {
    pub fn new() -> Valves
        ensures { result ≡ at_rest }
    {
        Valves {
            channel: 0,
            shots: 0,
            poured: 0,
            status: Status::Ready,
        }
    }

    // What is to be poured, if anything is. An order that was taken is gone, also one for no channel.
    pub fn take_order(&mut self) -> Option<Pour>
        ensures value { result ≡ pour_of self.old }
        ensures ordered { IfSome result (λ pour. Ordered (valve_cells self.old) pour) }
        ensures after { self.new ≡ after_pour self.old }
    {
        if self.shots == 0 {
            return None;
        }
        let shots = std::mem::replace(&mut self.shots, 0);
        if self.channel >= CHANNELS {
            self.status = Status::NoChannel;
            return None;
        }
        self.poured = self.poured.saturating_add(shots);
        self.status = Status::Poured;
        Some(Pour {
            channel: self.channel,
            shots,
        })
    }
}

impl Bus for Valves {
    ghost byte = { λ s. valve_cells s };

    ghost sound = { λ s. valves_sound s };

    ghost layout = { λ s. [] };

    fn read(&mut self, access: Access) -> Result<u32, Refusal> {
        let width = access.check()?;
        let word = match access.at.0 / 4 {
            0 => self.channel,
            1 => self.shots,
            2 => self.poured,
            3 => self.status.number(),
            _ => return Err(Refusal::Absent(access.at)),
        };
        Ok(bytes_named(word, access.at.0 % 4, width))
    }

    fn write(&mut self, access: Access, value: u32) -> Result<(), Refusal> {
        let width = access.check()?;
        let first = access.at.0 % 4;
        match access.at.0 / 4 {
            0 => self.channel = with_bytes_named(self.channel, first, width, value),
            1 => self.shots = with_bytes_named(self.shots, first, width, value),
            2 | 3 => return Err(Refusal::Fixed(access.at)),
            _ => return Err(Refusal::Absent(access.at)),
        }
        Ok(())
    }
}
