//! The physical bus: what each address holds, and the two calls by which it is read and written.
#![tactic(auto)]

ghost use Rattle.std.specs.Prelude.{◌≡◌, List};
ghost use Rattle.bus.specs.Layout.{Fixture};
ghost use Rattle.bus.specs.Memory.{Memory, Sound, read_of, write_of, answer_of, memory_after};

pub mod access;
pub mod address;
pub mod board;
pub mod reach;
pub mod reference;
pub mod refusal;

pub use access::{Access, Width};
pub use address::PhysAddr;
pub use board::{Span, check_border};
pub use reach::Reach;
pub use refusal::{BoardRefusal, Refusal};

pub trait Bus {
    // What each physical address holds.
    ghost byte: { Self → Memory };

    // Nothing lies at 2^32 or above, and every cell holds a byte.
    ghost sound: { (s : Self) → Sound (byte s) };

    // What no call changes: where the parts lie, whose memory was lent to them, and what lies behind the bus and is not shown
    // as it is. So a call cannot touch what it does not name, and a caller that lent memory to a bank knows what it holds once
    // the bank is gone.
    ghost layout: { Self → List Fixture };

    // The bytes that `access` names, the lowest first.
    fn read(&mut self, access: Access) -> Result<u32, Refusal>
        ensures value { result ≡ read_of (byte self.old) access.at.0 access.width }
        ensures same { byte self.new ≡ byte self.old }
        ensures kept { layout self.new ≡ layout self.old };

    // Replaces the bytes that `access` names by the low bytes of `value`, the lowest first.
    fn write(&mut self, access: Access, value: u32) -> Result<(), Refusal>
        ensures value { result ≡ answer_of (write_of (byte self.old) access.at.0 access.width value) }
        ensures after { byte self.new ≡ memory_after (byte self.old) (write_of (byte self.old) access.at.0 access.width value) }
        ensures kept { layout self.new ≡ layout self.old };
}
